//! Snapshots of the tree beside writers.

/// Snapshots beside writers are whole. The first task makes a directory, which is node 1. Two tasks write, each on a processor of its own.
/// Each makes two files, makes them larger, moves them into the directory, and removes the one; and it removes some file, whoever made it.
/// One takes snapshots.
pub const CASE: &str = "\
config 5 2 1 12 20: trees
0 wantwrite 0 0: done
0 create 0 dir: done
0 dropwrite 0 0: done
rounds 500 500 0 50
    1 wantwrite 0 0: done
    1 create 0 file: done Again NoSpace
    1 grow 100 1: done Again NoEntry NoSpace
    1 move 100 1: done Again NoEntry
    1 dropwrite 0 1: done
    1 wantwrite 0 0: done
    1 create 0 file: done Again NoSpace
    1 grow 100 2: done Again NoEntry NoSpace
    1 move 100 1: done Again NoEntry
    1 remove 100: done Again NoEntry
    1 remove 200: done Again NoEntry IsDir
    1 dropwrite 0 1: done
    2 wantwrite 0 1: done
    2 create 0 file: done Again NoSpace
    2 grow 100 3: done Again NoEntry NoSpace
    2 move 100 1: done Again NoEntry
    2 dropwrite 0 0: done
    2 wantwrite 0 1: done
    2 create 0 file: done Again NoSpace
    2 grow 100 1: done Again NoEntry NoSpace
    2 move 100 1: done Again NoEntry
    2 remove 100: done Again NoEntry
    2 remove 200: done Again NoEntry IsDir
    2 dropwrite 0 0: done
    4 freeze: done
    4 snapshot: done
    4 thaw: done
join: done
close: done
umount 0
";
