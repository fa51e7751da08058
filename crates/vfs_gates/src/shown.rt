//! What `{:?}` shows of gates and tasks.

use crate::closed::Closed;
use crate::gates::Gates;
use crate::task::Task;
use std::fmt;
use std::fmt::Debug;

/// Shows the configuration; what the words hold changes meanwhile.
impl Debug for Gates {
    fn fmt<W: fmt::Write>(&self, f: &mut fmt::Formatter<W>) -> fmt::Result {
        f.debug_struct("Gates")
            .field("config", &self.words.config)
            .finish_non_exhaustive()
    }
}

/// Shows its number, whether an operation is under way, and the accesses that it holds.
impl Debug for Task {
    fn fmt<W: fmt::Write>(&self, f: &mut fmt::Formatter<W>) -> fmt::Result {
        f.debug_struct("Task")
            .field("number", &self.number)
            .field("under_way", &self.state.phase.is_some())
            .field("accesses", &self.state.accesses)
            .finish_non_exhaustive()
    }
}

/// Shows the configuration.
impl Debug for Closed {
    fn fmt<W: fmt::Write>(&self, f: &mut fmt::Formatter<W>) -> fmt::Result {
        f.debug_struct("Closed")
            .field("config", &self.config)
            .finish_non_exhaustive()
    }
}
