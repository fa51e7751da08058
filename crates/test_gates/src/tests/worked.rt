//! Worked examples: sums, packed words, the most tasks and accesses, and two tasks in two threads.

use cpu_words::{Sum, Taken};
use percpu_rwsem::SyncWord;
use std::test::Fail;

/// Each of two tasks, which are all that there are, enters level 1 in a thread of its own, and leaves it. A freeze then finds nobody inside. The gates
/// can't be closed before the tasks are joined.
pub const READERS: &str = "\
config 2 2 1 2 8: agrees
split: done
both 1: done
    0 trystart 1 0: done Again*
    0 end 1 0: done
    1 trystart 1 0: done Again*
    1 end 1 0: done
0 freeze: done
0 trysnapshot: done
close: Order
join: done
close: done
stage 4
";

/// Each of two tasks takes an access at the mount and gives it back, 1,000 times, in a thread of its own.
pub const WRITERS: &str = "\
config 3 2 1 2 8: agrees
rounds 1000 1000
    1 trywant 0 0: done
    1 drop 0 0: done
    2 trywant 0 0: done
    2 drop 0 0: done
close: Order
join: done
close: done
umount 0
";

/// A task by itself is refused once it has made the file system read-only, and no more once it has made it writable.
pub const ALONE: &str = "\
config 1 2 1 2 8: agrees
0 want 0 0: done
0 drop 0 0: done
0 start 1 0: done
0 end 1 0: done
0 remount ro: done
0 trywant 0 0: ReadOnly
0 remount rw: done
0 want 0 0: done
0 drop 0 0: done
close: done
sb 0
";

/// A task can split 63 others off, and no more, and take 1,024 accesses at a mount, and no more.
pub const LIMITS: &str = "\
config 64 2 1 2 8: agrees
split 63: done
split: TooMany
0 trywant 0 0: done* TooMany
0 stands: task 0 mount 0 1024, task 0 idle
close: Order
close: Order
";

/// Whether the sum of two words wraps to 0.
fn wraps() -> bool {
    match Sum::start().take(1, 2) {
        Taken::More(sum) => matches!(sum.take(u64::MAX, 2), Taken::Total(0)),
        Taken::Total(_) => false,
    }
}

/// Returns the word of an `rcu_sync` after a change. None if it is no such word, or can't be changed so.
fn after(change: &str, word: u64) -> Option<u64> {
    let word = SyncWord::unpack(word)?;
    let changed = match change {
        "enter" => word.on_enter(),
        "exit" => word.on_exit(),
        "claim" => word.on_claim(),
        _ => word.on_callback(),
    };
    Some(changed?.pack())
}

/// Changes of such words, each with the word before, and the word after.
static CHANGES: [(&str, u64, Option<u64>); 12] = [
    ("exit", 258, Some(3)),
    ("claim", 3, Some(11)),
    ("enter", 11, Some(267)),
    ("exit", 267, Some(12)),
    ("callback", 12, Some(3)),
    ("callback", 11, Some(0)),
    ("callback", 267, Some(258)),
    ("exit", 0, None),
    ("callback", 0, None),
    ("claim", 0, None),
    ("claim", 258, None),
    ("callback", 3, None),
];

#[test]
fn sums_wrap_and_packed_words_change(_rt: HostRuntime) -> Result<(), Fail> {
    for (change, before, wanted) in CHANGES.iter() {
        if after(change, *before) != *wanted {
            return Err(Fail::new(*change));
        }
    }
    if wraps() {
        Ok(())
    } else {
        Err(Fail::new("summed otherwise"))
    }
}
