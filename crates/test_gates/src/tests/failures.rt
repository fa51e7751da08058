//! Each hook of the file system fails: the call is refused with just that code, all stands as it stood, and the same call is done once the file
//! system agrees.

/// Calls that fail, in a row: each is refused with the code that it was answered, leaves all as it stood, and is done when it is made again and
/// the file system agrees. 16 is EBUSY's number. A freeze shuts the levels, and leaves the mount; a remount shuts the mount alone.
pub const FAILURES: &str = "\
config 2 2 1 2 8: agrees
split: done
0 trywant 0 0: done
0 drop 0 1: done
0 trystart 1 0: done
0 end 1 1: done
0 trystart 2 0: done
0 end 2 1: done
0 trystart 3 0: done
0 end 3 1: done
fail sync 16
0 freeze: Hook
0 trywant 0 0: done
0 drop 0 1: done
0 trystart 1 0: done
0 end 1 1: done
0 trystart 2 0: done
0 end 2 1: done
0 trystart 3 0: done
0 end 3 1: done
0 freeze: done
0 trywant 0 0: done
0 drop 0 1: done
0 trystart 1 0: Again
0 end 1 1: Order
0 trystart 2 0: Again
0 end 2 1: Order
0 trystart 3 0: Again
0 end 3 1: Order
fail unfreeze_fs 0
0 thaw: Hook
0 trywant 0 0: done
0 drop 0 1: done
0 trystart 1 0: Again
0 end 1 1: Order
0 trystart 2 0: Again
0 end 2 1: Order
0 trystart 3 0: Again
0 end 3 1: Order
0 thaw: done
0 trywant 0 0: done
0 drop 0 1: done
0 trystart 1 0: done
0 end 1 1: done
0 trystart 2 0: done
0 end 2 1: done
0 trystart 3 0: done
0 end 3 1: done
fail freeze_fs 65535
0 freeze: Hook
0 trywant 0 0: done
0 drop 0 1: done
0 trystart 1 0: done
0 end 1 1: done
0 trystart 2 0: done
0 end 2 1: done
0 trystart 3 0: done
0 end 3 1: done
0 freeze: done
0 trywant 0 0: done
0 drop 0 1: done
0 trystart 1 0: Again
0 end 1 1: Order
0 trystart 2 0: Again
0 end 2 1: Order
0 trystart 3 0: Again
0 end 3 1: Order
fail unfreeze_fs 1
0 thaw: Hook
0 trywant 0 0: done
0 drop 0 1: done
0 trystart 1 0: Again
0 end 1 1: Order
0 trystart 2 0: Again
0 end 2 1: Order
0 trystart 3 0: Again
0 end 3 1: Order
0 thaw: done
0 trywant 0 0: done
0 drop 0 1: done
0 trystart 1 0: done
0 end 1 1: done
0 trystart 2 0: done
0 end 2 1: done
0 trystart 3 0: done
0 end 3 1: done
fail reconfigure ro 5
0 remount ro: Hook
0 trywant 0 0: done
0 drop 0 1: done
0 trystart 1 0: done
0 end 1 1: done
0 trystart 2 0: done
0 end 2 1: done
0 trystart 3 0: done
0 end 3 1: done
0 remount ro: done
0 trywant 0 0: ReadOnly
0 drop 0 1: Order
0 trystart 1 0: done
0 end 1 1: done
0 trystart 2 0: done
0 end 2 1: done
0 trystart 3 0: done
0 end 3 1: done
fail reconfigure rw 30
0 remount rw: Hook
0 trywant 0 0: ReadOnly
0 drop 0 1: Order
0 trystart 1 0: done
0 end 1 1: done
0 trystart 2 0: done
0 end 2 1: done
0 trystart 3 0: done
0 end 3 1: done
0 remount rw: done
0 trywant 0 0: done
0 drop 0 1: done
0 trystart 1 0: done
0 end 1 1: done
0 trystart 2 0: done
0 end 2 1: done
0 trystart 3 0: done
0 end 3 1: done
join: done
close: done
";

/// A freeze that finds another task inside a level gives up: one that waits for nobody, as EAGAIN, and one whose file system says so, with its
/// code. 110 is ETIMEDOUT's number. All levels are open then, that level for others than who is inside it, and the same call is done once it has
/// left.
pub const GIVEN_UP: &str = "\
config 2 2 1 2 8: agrees
split: done
1 start 1 0: done
0 try_freeze: Hook 11
fail keep_waiting 110
0 freeze: Hook
0 trystart 1 1: done
0 trystart 2 1: done
0 trystart 3 1: done
0 end 3 0: done
0 end 2 0: done
0 end 1 0: done
1 end 1 1: done
1 start 2 0: done
0 try_freeze: Hook 11
fail keep_waiting 110
0 freeze: Hook
0 trystart 1 1: done
0 trystart 2 1: done
0 trystart 3 1: done
0 end 3 0: done
0 end 2 0: done
0 end 1 0: done
1 end 2 1: done
1 start 3 0: done
0 try_freeze: Hook 11
fail keep_waiting 110
0 freeze: Hook
0 remount ro: done
0 remount rw: done
0 trystart 1 1: done
0 trystart 2 1: done
0 trystart 3 1: done
0 end 3 0: done
0 end 2 0: done
0 end 1 0: done
1 end 3 1: done
0 try_freeze: done
1 trystart 1 0: Again
0 thaw: done
join: done
close: done
umount 0
stage 0
";
