//! Freezes and thaws beside readers and callbacks, of a file system that fails now and then.

use super::super::fixtures::Fixture;
use std::sync::atomic::Ordering;
use vfs_gates::{GateError, Op};

impl Fixture {
    /// Whether no reader is inside level 1 or 2, nor inside level 3 where that matters, too.
    pub fn is_empty(&self, is_top_closed: bool) -> bool {
        let is_top_empty = self.inside_top.load(Ordering::SeqCst) == 0;
        self.inside.load(Ordering::SeqCst) == 0 && (is_top_empty || !is_top_closed)
    }

    /// Counts who has started in, and out again before it leaves; and nobody is counted where a try found a level closed.
    pub fn counts_readers(&self, op: Op, answer: Result<(), GateError>) -> bool {
        let Op::Start { level, .. } = op else {
            return true;
        };
        if answer.is_err() {
            return self.is_empty(true);
        }
        let inside = if level < 3 {
            &self.inside
        } else {
            &self.inside_top
        };
        inside.fetch_add(1, Ordering::SeqCst);
        inside.fetch_sub(1, Ordering::SeqCst);
        true
    }
}

/// Nobody is inside while it is frozen. Two tasks go inside each level on one processor, and leave it on the other. One runs the callbacks
/// of all levels. One freezes, finds each level shut, and thaws, however often the file system fails meanwhile: not twice in a row.
pub const CASE: &str = "\
config 5 2 1 2 8: freezes
rounds 5000 5000 1000 200
    1 start 1 0: done
    1 end 1 1: done
    1 start 2 1: done
    1 end 2 0: done
    1 start 3 0: done
    1 end 3 1: done
    2 start 1 1: done
    2 end 1 0: done
    2 start 2 0: done
    2 end 2 1: done
    2 start 3 1: done
    2 end 3 0: done
    3 callback 1: done
    3 callback 2: done
    3 callback 3: done
    4 freeze: done Hook*
    4 trystart 1 0: Again
    4 trystart 2 1: Again
    4 trystart 3 0: Again
    4 thaw: done>9 Hook
    4 thaw: done
join: done
close: done
stage 0
";
