//! The refusals at the tree.

pub(crate) const ROWS: &str = "\
create remove grow move fault flush open: NoEntry
means: The node of the file, or that of the directory of a create or move, was free, or its file was removed.
state now: Unchanged: the task holds what it held.
do next: Look the file up again. For a remove, it is as you wished.
never: use the number without a look-up: another file may have it now.
in Linux: `stat PATH` tells the inode that a name has now.

remove grow move fault flush open: IsDir
means: A directory stood where a file was named, and still does.
state now: Unchanged: the task holds what it held.
do next: Report it: no retry helps.
in Linux: `stat PATH` tells what a name is.

create move: NotDir
means: A file stood where a directory was named.
state now: Unchanged: the task holds what it held.
do next: Report it: no retry helps.
in Linux: `stat PATH` tells what a name is.

create: NoSpace
means: Each node was found taken, one after the other. There need be no moment at which all were.
state now: Unchanged, and what the call had charged is given back. The task holds what it held.
do next: Remove something, or try once more, or give up.
in Linux: `df -i PATH` tells how many inodes are free.

grow: NoSpace
means: The blocks in use and your own go past the capacity. Blocks count that another call has charged and may give back.
state now: Unchanged, and what the call had charged is given back. The task holds what it held.
do next: Remove something, or try once more. A grow by more than the capacity never succeeds.
in Linux: `df PATH` tells how many blocks are free, and `lsof +L1 MOUNTPOINT` which removed files still have some.

create remove grow move fault flush open close tryclose: Again, another task first
means: Another task changed a word of the file first: opens and closes do so, too. For a grow the file may also have been removed.
state now: Unchanged, and what the call had charged is given back. The task holds what it held.
do next: Try again at once: the call loads everything anew. After a grow, look the file up first.
in Linux: The kernel waits for a lock here and returns no such error.

tryclose: Again, frozen
means: It was the last close of a removed file, and level 3 was closed.
state now: The file is still open.
do next: Wait by `close_file`, or try again after the thaw.
never: thaw a freeze that isn't yours.
in Linux: The kernel waits at the closed level and returns no such error: `ps -eo pid,stat,wchan:30,args` shows who does.

snapshot trysnapshot: Invalid
means: Nothing was frozen: the stage was 0 or 1.
state now: Your last snapshot is an older tree, or None.
do next: Freeze, and try again.
never: take `tree()` after it for the tree of now.
in Linux: Freeze first, by `fsfreeze -f MOUNTPOINT`. A snapshot by LVM freezes by itself.

trysnapshot: Again
means: Another task owned the lock `umount`: for a change, remount, freeze, thaw or snapshot.
state now: Your last snapshot is an older tree, or None.
do next: Pause and try again, or wait by `snapshot`.
";
