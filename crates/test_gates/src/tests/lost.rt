//! Tasks that are lost: dropped while they hold something, or own something. Whoever is left is refused where he has to be, and only there. No
//! number is left to split off, and the gates can't be closed, but both come back as they were.

/// A change of the first mount is busy, each time, while others may want there, and the second mount can be shut.
pub const ACCESS: &str = "\
config 2 2 2 2 8: agrees
split: done
1 trywant 0 1: done
lose: done
split: TooMany
0 trychange 0 ro: Busy
0 trychange 0 ro: Busy
0 trywant 0 0: done
0 drop 0 0: done
0 trychange 0 ro: Busy
0 trychange 1 ro: done
0 trywant 1 0: ReadOnly
close: Order
0 stands: task 0 idle
0 trychange 0 ro: Busy
close: Order
";

/// It owns `umount` after one step. Changes of each mount and snapshots would wait, while others may want.
pub const OWNER: &str = "\
config 2 2 2 2 8: agrees
split: done
1 change 0 ro: begun
1 step: umount 0
lose: done
split: TooMany
0 trychange 0 ro: Again
0 trychange 0 rw: Again
0 trychange 1 ro: Again
0 trysnapshot: Again
0 trywant 0 0: done
0 drop 0 1: done
0 trysnapshot: Again
close: Order
0 stands: task 0 idle
0 trychange 0 ro: Again
close: Order
";

/// Its fourth step is the one that sets HOLD. Wants of the first mount would wait, and those of the second don't, nor starts.
pub const HOLDER: &str = "\
config 2 2 2 2 8: agrees
split: done
1 change 0 ro: begun
1 step: umount 0
1 step: mount0.flags 0
1 step: sb 0
1 step: mount0.flags 0
lose: done
split: TooMany
0 trywant 0 0: Again
0 drop 0 0: Order
0 trywant 1 0: done
0 drop 1 1: done
0 trystart 1 0: done
0 end 1 1: done
close: Order
0 stands: task 0 idle
0 trychange 0 ro: Again
close: Order
";

/// A level is lost. A freeze would wait for it for ever, so none is asked for here.
pub const INSIDE: &str = "\
config 2 2 2 2 8: agrees
split: done
1 trystart 1 0: done
lose: done
split: TooMany
close: Order
0 stands: task 0 idle
0 trychange 0 ro: done
close: Order
";

/// A task at rest is lost.
pub const RESTING: &str = "\
config 2 2 2 2 8: agrees
split: done
lose: done
split: TooMany
close: Order
0 stands: task 0 idle
0 trychange 0 ro: done
close: Order
";
