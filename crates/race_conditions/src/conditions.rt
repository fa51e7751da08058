//! What is said of a state.

use access_model::{Gate, GateError, Holder};
use cpu_words::WordName;

/// How a call has answered, or that it was skipped.
#[derive(Clone, Copy)]
pub enum CallAnswer {
    /// It was done.
    Done,
    /// It was refused, for whatever reason.
    Refused,
    /// It was refused for this reason.
    RefusedFor(GateError),
    /// It was skipped.
    Skipped,
}

/// What a node of the tree is.
#[derive(Clone, Copy)]
pub enum NodeFact {
    /// There is no such node.
    Free,
    File,
    Dir,
    /// It was changed since it was last written back.
    Dirty,
    /// It was removed while a task had it open.
    Removed,
}

/// A fact of a state: of what the calls have answered, of what the gates show, or of a word. None of them speaks of how often a section was
/// entered, which a state of a race leaves out.
#[derive(Clone, Copy)]
pub enum Fact {
    /// A task's call has answered so; calls count from 0.
    Answered {
        task: u8,
        call: u8,
        answer: CallAnswer,
    },
    /// The call is the one that a task answers next: those before it have their answers, and it has none. The task waits in it, is at it,
    /// or has yet to begin it.
    Due {
        task: u8,
        call: u8,
    },
    /// A task holds an access at this gate.
    Holds {
        task: u8,
        gate: Gate,
    },
    /// A task has this file open.
    HasOpen {
        task: u8,
        file: u8,
    },
    /// The superblock is read-only, or writable.
    Superblock {
        read_only: bool,
    },
    /// The mount's own flag is set, or clear.
    Mount {
        mount: u8,
        read_only: bool,
    },
    /// The stage of the freeze, `s_writers.frozen`, is 0 to 4.
    Stage(u8),
    /// This one holds a freeze.
    FrozenBy(Holder),
    /// A node is such.
    Node {
        node: u8,
        is: NodeFact,
    },
    /// A word has this value.
    Word {
        word: WordName,
        value: u64,
    },
}

/// A condition on a state.
#[derive(Drop)]
pub enum Condition {
    Is(Fact),
    Not(Box<Condition>),
    And(Box<Condition>, Box<Condition>),
    Or(Box<Condition>, Box<Condition>),
}
