//! Remounts of a file system that refuses now and then, beside writers.

/// A remount keeps its own thread out. One task remounts to read-only and back, and asks every mount afterwards. A remount that is refused
/// leaves the superblock as it was; the one after it isn't refused by the file system. Two take an access at each mount, each on a
/// processor of its own, and give it back on the other.
pub const CASE: &str = "\
config 5 2 3 2 8: remounts
rounds 300 300 0 50
    1 want 0 0: done ReadOnly>1
    1 drop 0 1: done
    1 want 1 0: done ReadOnly>1
    1 drop 1 1: done
    1 want 2 0: done ReadOnly>1
    1 drop 2 1: done
    2 want 0 1: done ReadOnly>1
    2 drop 0 0: done
    2 want 1 1: done ReadOnly>1
    2 drop 1 0: done
    2 want 2 1: done ReadOnly>1
    2 drop 2 0: done
    4 remount ro: done Busy* Hook*
    4 trywant 0 0: ReadOnly
    4 trywant 1 0: ReadOnly
    4 trywant 2 0: ReadOnly
    4 remount rw: done>4 Hook
    4 trywant 0 0: ReadOnly
    4 trywant 1 0: ReadOnly
    4 trywant 2 0: ReadOnly
    4 remount rw: done
    4 trywant 0 0: done
    4 drop 0 1: done
    4 trywant 1 0: done
    4 drop 1 1: done
    4 trywant 2 0: done
    4 drop 2 1: done
join: done
close: done
sb 0
remount 0
";
