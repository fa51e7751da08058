//! Files that are removed while open, beside a remount and a freeze.

/// No removed file is left open. Two tasks write, each on a processor of its own, once the superblock is writable: each opens some file,
/// makes one, opens it and removes it, and removes the other; and it closes both, once without waiting, and then with. One makes the
/// superblock read-only, once nobody is in the way, and writable again, once no freeze is. One freezes, takes a snapshot, and looks whether
/// the superblock is read-only.
pub const CASE: &str = "\
config 5 2 1 6 8: trees
rounds 500 500 30 50
    1 wantwrite 0 0: done ReadOnly*
    1 open 200: done Again NoEntry
    1 create 0 file: done Again>3 NoSpace>3
    1 grow 100 1: done Again>2 NoEntry>2 NoSpace>2
    1 open 100: done Again>1 NoEntry>1
    1 remove 100: done Again NoEntry
    1 remove 200: done Again NoEntry
    1 dropwrite 0 1: done
    1 tryclose 100 0: done Again Order
    1 close 100 0: done Again* Order
    1 tryclose 200 0: done Again Order
    1 close 200 0: done Again* Order
    2 wantwrite 0 1: done ReadOnly*
    2 open 200: done Again NoEntry
    2 create 0 file: done Again>3 NoSpace>3
    2 grow 100 1: done Again>2 NoEntry>2 NoSpace>2
    2 open 100: done Again>1 NoEntry>1
    2 remove 100: done Again NoEntry
    2 remove 200: done Again NoEntry
    2 dropwrite 0 0: done
    2 tryclose 100 1: done Again Order
    2 close 100 1: done Again* Order
    2 tryclose 200 1: done Again Order
    2 close 200 1: done Again* Order
    3 remount ro: done Busy*
    3 remount rw: done Busy*
    4 freeze: done
    4 snapshot: done
    4 trywant 0 0: done ReadOnly>1
    4 drop 0 1: done
    4 thaw: done
join: done
close: done
removed 0
";
