//! Each public call as its user makes it, by tasks of one thread.

/// Accesses at a mount are taken with one processor and given back with the other, and keep it writable meanwhile. Changes and remounts keep
/// wants out, and let them in again. Levels are gone into upwards, and left in any order. What is frozen keeps everybody out, shows its tree, and
/// is opened by another task.
pub const ACCESSES: &str = "\
config 2 2 1 2 8: agrees
split: done
0 tree: none
0 want 0 0: done
0 trywant 0 0: done
0 trychange 0 ro: Busy
0 drop 0 1: done
0 drop 0 1: done
0 drop 0 1: Order
0 drop 9 200: Invalid
1 change 0 ro: done
1 want 0 0: ReadOnly
1 trychange 0 rw: done
1 remount ro: done
1 trywant 0 0: ReadOnly
1 wantwrite 0 0: ReadOnly
1 trystart 1 0: done
1 end 1 0: done
1 remount rw: done
0 start 1 0: done
0 trystart 2 0: done
0 trystart 2 0: Order
0 end 1 1: done
0 end 2 1: done
0 end 2 1: Order
1 freeze: done
0 trystart 1 0: Again
0 snapshot: done
0 tree: node 0 dir 0 0 clean
0 trysnapshot: done
0 thaw: done
0 callback 1: done=1
0 callback 1: done=0
join: done
close: done
umount 0
mount0.cpu1 18446744073709551614
";

/// A writer makes a directory and a file in it, which grows and goes to the root. A page of the file is made dirty inside the second level, and
/// written back inside the third. The last free node is taken once and given back. A snapshot of what is frozen has the file's blocks.
pub const FILES: &str = "\
config 2 2 1 4 8: agrees
split: done
0 create 0 file: Order
0 wantwrite 0 0: done
0 create 0 dir: done=1
0 create 1 file: done=2
0 grow 2 9: NoSpace
0 grow 2 5: done
0 move 2 0: done
0 start 2 0: done
0 fault 2: done
0 start 3 0: done
0 flush 2: done
0 flush 1: IsDir
0 end 3 0: done
0 end 2 0: done
0 create 0 file: done=3
0 create 0 file: NoSpace
0 remove 3: done
0 remove 255: Invalid
0 dropwrite 0 0: done
0 dropwrite 0 0: Order
0 snapshot: Invalid
0 freeze: done
0 snapshot: done
0 thaw: done
0 tree: node 0 dir 0 0 clean, node 1 dir 0 0 clean, node 2 file 0 5 clean
join: done
close: done
used 5
";

/// Each try at a mount and each at a level is granted by either processor, to either task, also after a freeze, and each return on the other
/// processor is done; a snapshot of what is frozen is taken by whoever tries.
pub const TRIES: &str = "\
config 2 2 2 2 8: agrees
split: done
0 trywant 0 0: done
0 trystart 1 0: done
0 trystart 2 0: done
0 trystart 3 0: done
0 end 3 1: done
0 end 2 1: done
0 end 1 1: done
0 drop 0 1: done
0 trychange 0 ro: done
0 trychange 0 rw: done
1 trywant 0 1: done
1 trystart 1 1: done
1 trystart 2 1: done
1 trystart 3 1: done
1 end 3 0: done
1 end 2 0: done
1 end 1 0: done
1 drop 0 0: done
1 trychange 0 ro: done
1 trychange 0 rw: done
1 trywant 1 0: done
1 trystart 1 0: done
1 trystart 2 0: done
1 trystart 3 0: done
1 end 3 1: done
1 end 2 1: done
1 end 1 1: done
1 drop 1 1: done
1 trychange 1 ro: done
1 trychange 1 rw: done
0 freeze: done
1 trysnapshot: done
1 tree: node 0 dir 0 0 clean
0 trysnapshot: done
0 tree: node 0 dir 0 0 clean
0 thaw: done
1 trywant 1 0: done
1 trystart 1 0: done
1 trystart 2 0: done
1 trystart 3 0: done
1 end 3 1: done
1 end 2 1: done
1 end 1 1: done
1 drop 1 1: done
1 trychange 1 ro: done
1 trychange 1 rw: done
join: done
close: done
";

/// A second holder joins what the first has frozen, and a second freeze of one holder is refused. The first of two thaws leaves all frozen, and
/// the second lets tasks in.
pub const HOLDERS: &str = "\
config 2 2 1 2 8: agrees
split: done
0 freeze kernel: done
1 thaw user: Invalid
1 freeze user: done
0 freeze user: Busy
1 thaw kernel: done
0 trystart 1 0: Again
0 thaw kernel: Invalid
0 thaw user: done
1 trystart 1 0: done
1 end 1 0: done
join: done
close: done
holders 0
";

/// A file is opened once by each task, removed and closed by one of both, and is no entry from then on. Its last close isn't done while all is
/// frozen, nor inside level 3. A snapshot has the removed file, of which the blocks are charged. Then the superblock is made read-only, and the
/// node taken again.
pub const OPENS: &str = "\
config 2 2 1 2 8: agrees
split: done
0 open 1: NoEntry
0 wantwrite 0 0: done
0 create 0 file: done=1
0 grow 1 5: done
0 open 2: Invalid
0 open 0: IsDir
0 open 1: done
0 open 1: TooMany
1 tryclose 1 0: Order
1 open 1: done
0 remove 1: done
0 close 1 2: Invalid
0 close 1 1: done
0 close 1 1: Order
0 open 1: NoEntry
0 grow 1 1: NoEntry
0 create 0 file: NoSpace
0 dropwrite 0 0: done
0 remount ro: Busy
0 freeze: done
1 tryclose 1 0: Again
0 snapshot: done
0 thaw: done
0 tree: node 0 dir 0 0 clean, node 1 file 0 5 clean removed
1 start 3 0: done
1 close 1 0: Order
1 tryclose 1 0: Order
1 end 3 0: done
1 close 1 1: done
1 remount ro: done
1 remount rw: done
1 wantwrite 0 0: done
1 create 0 file: done=1
1 open 1: done
1 tryclose 1 0: done
1 dropwrite 0 0: done
join: done
close: done
removed 0
used 0
";

/// Gates with a file open are not closed.
pub const KEPT_OPEN: &str = "\
config 2 2 1 2 8: agrees
split: done
0 wantwrite 0 0: done
0 create 0 file: done=1
0 grow 1 5: done
0 open 1: done
0 dropwrite 0 0: done
join: Order
close: Order
0 stands: task 0 open 1, task 0 idle
0 tryclose 1 0: done
join: done
close: done
used 5
";

/// A task with a file open is not joined.
pub const OPENED_TOO: &str = "\
config 2 2 1 2 8: agrees
split: done
1 wantwrite 0 0: done
1 create 0 file: done=1
1 open 1: done
1 dropwrite 0 0: done
join: Order
close: Order
1 stands: task 1 open 1, task 1 idle
1 close 1 0: done
join: done
close: done
used 0
";

/// Each call goes by steps: a remount, which is to be what is so already, takes `umount` and finds nothing frozen; meanwhile its task isn't
/// joined, and a snapshot waits twice for `umount`, and tells so after each step. The remount finds its state, asks no hook, and ends. The
/// snapshot finds nothing frozen once it has `umount`, and still tells these two waits, and the next call none.
pub const BY_STEPS: &str = "\
config 2 2 1 2 8: agrees
split: done
1 remount rw: begun
1 step: umount 0
1 step: stage 0
join: Order
close: Order
1 stands: task 1 busy
0 snapshot: begun
0 step: umount 2, 0 waiting
0 stands: waited 1, task 0 busy
0 step: umount 2, 0 waiting
0 stands: waited 2, task 0 busy
1 step: sb 0
1 step: umount 0, 1 ok
0 step: umount 0
0 step: stage 0
0 step: umount 0, 0 refused 22 Invalid
0 stands: waited 2, task 0 idle
0 trysnapshot: Invalid
0 stands: task 0 idle
join: done
close: done
";

/// Two tasks at rest, before and after the first one's calls with a closure.
pub const CLOSURES: &str = "\
config 2 2 1 2 8: agrees
split: done
0 writes_inside: done
0 stands: task 0 idle
0 copies_inside: done
0 callback 3: done=0
join: done
close: done
";
