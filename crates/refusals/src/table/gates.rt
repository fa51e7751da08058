//! The refusals of mounts, levels and the superblock.

pub(crate) const ROWS: &str = "\
want trywant wantwrite: ReadOnly
means: The call read the mount or the superblock as read-only, or a remount to read-only as under way.
state now: Nothing is counted, and a `want_write` has left level 1 again.
do next: If a backup or remount of your own did it, pause and ask again. Else report that the file system is read-only.
never: remount to writable to get through: somebody made it read-only on purpose, or an error did.
in Linux: `findmnt -no VFS-OPTIONS,FS-OPTIONS -T PATH` tells whether the mount or the superblock is read-only, `dmesg` whether an error made it so.

trywant: Again
means: Another task, in a change or remount to read-only, had HOLD set at the mount.
state now: Nothing is counted any more. But while the call was counted, it was part of the other task's sum, which may be `Busy` because of it.
do next: Pause and try again, or wait by `want`.
never: try again without a pause: each try is counted.
in Linux: The kernel waits here for some microseconds and returns no such error.

trystart: Again
means: Another task had closed the level, or everything was frozen.
state now: The count is taken back on the same processor, and the read-side section has ended.
do next: Wait by `start`, or give up and report that the file system is frozen.
never: thaw a freeze that isn't yours.
in Linux: `ps -eo pid,stat,wchan:30,args` shows who sleeps at a closed level, in `percpu_rwsem_wait`. `/sys/block/dm-N/dm/suspended` is 1 for a suspended device.

change trychange: Busy, to read-only
means: The sum of the mount's counts wasn't 0: somebody held write access there, or asked for it. A want that waits for this very change is counted, too.
state now: The mount's flag is as it was. Meanwhile a `want` waited, and a `try_want` was refused.
do next: Give back your own accesses first (`holds_mount`): they are counted, too. Then pause and try again, and give up in the end.
never: try again without a pause, nor take it for a proof that somebody writes.
in Linux: `fuser -vm MOUNTPOINT` lists who has files open there, with F for writing, and `lsof +f -- MOUNTPOINT` lists the files.

trychange: Again
means: Another task owned the lock `umount`: for a change, remount, freeze, thaw or snapshot.
state now: Unchanged.
do next: Pause and try again, or wait by `change_mount`.
in Linux: The kernel waits for the lock and returns no such error.

remount: Busy, frozen
means: The superblock is frozen, or a freeze closes level 1, for whichever holder. This is so even for a remount that changes nothing.
state now: Unchanged, and the file system was not asked.
do next: Wait for the thaw, with long pauses, and try again.
never: thaw a freeze that isn't yours: a backup may be reading.
in Linux: `dmsetup info -c -o name,suspended` and `/sys/block/dm-N/dm/suspended` tell of a suspended device. Nothing in 6.1 names who froze: `ps -e` shows agents that do, as `fsfreeze` or `qemu-ga`.

remount: Busy, to read-only, somebody counted
means: The sum of one mount's counts wasn't 0: somebody held write access there, or asked for it.
state now: Unchanged, and the file system was not asked. The mounts up to that one had HOLD for a while.
do next: Give back your own accesses first (`holds_mount`). Then pause and try again, and give up in the end.
never: try again without a pause: those who wait for HOLD make the next try `Busy`, too.
in Linux: `fuser -vm MOUNTPOINT` lists who has files open there, with F for writing. `findmnt -S SOURCE` lists all mounts of the file system: each is summed.

remount: Busy, to read-only, a removed file open
means: Some task has a removed file open, or a remove or a last close was under way.
state now: Unchanged, and the file system was not asked. All mounts had HOLD for a while.
do next: Close what you have open yourself (`has_open`). Try a few times, and then report that a removed file is in use.
never: end the process that has it open before you know whose data it is: the last close frees them.
in Linux: `lsof +L1 MOUNTPOINT` lists open files that have no name any more. `losetup -l` and `swapon --show` list files that the kernel itself has open.

remount: Hook, to read-only
means: The file system itself refused to become read-only.
state now: Writable as before. But the superblock stood as read-only for a while, so wants were `ReadOnly`, and dirty marks are cleared.
do next: Mend what the code tells, and remount again. The file system has to know by itself what is unwritten.
never: take the code for a refusal of the gates: `Hook(16)` isn't `Busy`.
in Linux: `dmesg` has what the file system said.

remount: Hook, to writable
means: The file system itself refused to become writable.
state now: Unchanged: it is read-only.
do next: Mend what the code tells, and remount again.
never: force it after an error of the file system: it wants a check first.
in Linux: `blockdev --getro DEVICE` tells whether the device is read-only, `dmesg` what the file system said.

freeze: Busy
means: Another freeze was closing level 1, or your holder has a freeze already: another task's, or one of your own.
state now: Unchanged.
do next: If you froze yourself and haven't thawed since, all is frozen already: go on, and thaw once when you are done. Else it is another task's freeze: pause and try again, or see by `try_snapshot` whether it serves you.
never: thaw a freeze that isn't yours: somebody else relies on it.
in Linux: `fsfreeze -f` fails with EBUSY. `ps -eo pid,stat,wchan:30,args` shows a freeze that is under way, and `/sys/block/dm-N/dm/suspended` is 1 for a suspended device.

freeze: Hook, a hook failed
means: The hook `sync` or `freeze_fs` failed. The code doesn't tell which: give each hook codes of its own.
state now: Stage 0: all closed levels are open again, each of them has a callback queued, and dirty marks are cleared.
do next: There is nothing to undo. Run the callbacks, mend what the code tells, and freeze again.
never: thaw after it: that is `Invalid`, or ends another task's freeze.
in Linux: `dmesg` has what the file system said, mostly of a write that failed.

freeze: Hook, given up
means: The freeze found somebody counted at a level, and the hook `keep_waiting` answered this code: 110 (`ETIMEDOUT`) of a deadline, 11 (`EAGAIN`) of a try. Who was counted may also have been about to find the level closed.
state now: Stage 0: all closed levels are open again, and each of them has a callback queued. If it gave up at level 3, dirty marks are cleared. While it waited, writers waited, too.
do next: There is nothing to undo. Run the callbacks, let the writers work, and freeze again later. If it never gets through, look for who stays inside.
never: try again without a pause, nor thaw: that is `Invalid`, or ends another task's freeze.
in Linux: The kernel doesn't give up: `fsfreeze -f` sleeps in state D until all are out. `ps -eo pid,stat,wchan:30,args` shows it in `percpu_down_write`.

thaw: Invalid
means: It is not frozen, or frozen by the other holder alone, or a freeze was closing level 1.
state now: Unchanged.
do next: If you had frozen, another task has thawed for your holder: what you read since may be of several moments. Else there is nothing of yours to thaw.
never: thaw for the other holder in its place.
in Linux: `fsfreeze -u` fails with EINVAL. The logs of the agents that freeze tell which of them has thawed.

thaw: Hook
means: The hook `unfreeze_fs` failed, which the last holder's thaw alone asks.
state now: Everything stays frozen, and held by this holder.
do next: Mend what the code tells, and thaw again.
never: walk away: everybody who writes waits until a thaw succeeds.
in Linux: `dmesg` has what the file system said. `ps -eo pid,stat,wchan:30,args` shows who waits.
";
