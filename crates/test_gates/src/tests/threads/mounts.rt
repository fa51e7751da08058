//! Wants and drops of two tasks, and beside them a change that comes and goes.

/// A change keeps its own thread out. One task makes the mount read-only, once nobody is in the way, finds no want granted then, and makes
/// it writable again. Two take an access there, each on a processor of its own, and give it back on the other.
pub const CASE: &str = "\
config 5 2 1 2 8: agrees
rounds 300 300 0 50
    1 want 0 0: done ReadOnly>9
    1 drop 0 1: done
    2 want 0 1: done ReadOnly>9
    2 drop 0 0: done
    4 trychange 0 ro: done Busy*
    4 trywant 0 0: ReadOnly
    4 trychange 0 rw: done
join: done
close: done
mount0.flags 0
";
