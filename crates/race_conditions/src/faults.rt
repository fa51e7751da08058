//! Why a text is no condition.

ghost use Rattle.std.specs.Prelude.{◌≡◌};
ghost use Rattle.race_conditions.specs.Faults.{text_of};

use std::alloc::AllocError;

/// What a condition would need where it has something else.
#[derive(Clone, Copy, PartialEq, Eq, Debug)]
pub enum Expected {
    /// A fact, `!` or `(`.
    Fact,
    /// A condition with fewer parentheses and operators in one another: 1,000 at most.
    Shallower,
    /// The `)` of a `(`.
    Close,
    /// `&`, `|` or the end.
    End,
    /// A task of the configuration.
    Task,
    /// `.` and a call, or `holds`.
    DotOrHolds,
    /// A call that the task has.
    Call,
    /// `=` or `due`.
    EqualsOrDue,
    /// `ok` or `refused`.
    Answer,
    /// The code of a hook, 1 to 65,535.
    Code,
    /// `mount`, `level` or `file`.
    Held,
    /// `=`.
    Equals,
    /// `ro` or `rw`.
    Access,
    /// A mount of the configuration.
    Mount,
    /// A level, 1 to 3.
    Level,
    /// A stage, 0 to 4.
    Stage,
    /// `kernel` or `user`.
    Holder,
    /// A node of the configuration.
    Node,
    /// `free`, `file`, `dir`, `dirty` or `removed`.
    NodeFact,
    /// `.`.
    Dot,
    /// `flags`, or `cpu` and a processor of the configuration, as in `cpu0`.
    FlagsOrCount,
    /// `cpu` and a processor of the configuration.
    Count,
    /// A value of the word.
    Value,
}

impl Expected {
    /// The text that is printed behind `expected`.
    pub fn text(self) -> &'static str
        ensures { result.now ≡ text_of self }
    {
        match self {
            Expected::Fact => "a fact, '!' or '('",
            Expected::Shallower => "a condition of fewer parts",
            Expected::Close => "')'",
            Expected::End => "'&', '|' or the end",
            Expected::Task => "a task",
            Expected::DotOrHolds => "'.' or 'holds'",
            Expected::Call => "a call of the task",
            Expected::EqualsOrDue => "'=' or 'due'",
            Expected::Answer => "'ok', 'refused' or 'skipped'",
            Expected::Code => "a code",
            Expected::Held => "'mount', 'level' or 'file'",
            Expected::Equals => "'='",
            Expected::Access => "'ro' or 'rw'",
            Expected::Mount => "a mount",
            Expected::Level => "a level",
            Expected::Stage => "a stage",
            Expected::Holder => "'kernel' or 'user'",
            Expected::Node => "a node",
            Expected::NodeFact => "'free', 'file', 'dir', 'dirty' or 'removed'",
            Expected::Dot => "'.'",
            Expected::FlagsOrCount => "'flags', or 'cpu' and a processor,",
            Expected::Count => "'cpu' and a processor",
            Expected::Value => "a value of the word",
        }
    }
}

/// What is expected behind so many bytes, where there is something else.
#[derive(Clone, Copy, PartialEq, Eq, Debug)]
pub struct Unexpected {
    pub after: usize,
    pub expected: Expected,
}

/// Why a text was not read.
#[derive(Clone, Copy, PartialEq, Eq, Debug)]
pub enum ConditionFault {
    /// It is no condition.
    Unexpected(Unexpected),
    /// A growth of memory was refused.
    NoMemory,
}

impl From<Unexpected> for ConditionFault {
    ghost use Rattle.race_conditions.specs.declared.faults.ConditionFault.TheVariants.{Unexpected as IsUnexpected};

    ghost from_gives = { λ unexpected fault. fault ≡ IsUnexpected unexpected };

    fn from(unexpected: Unexpected) -> ConditionFault {
        ConditionFault::Unexpected(unexpected)
    }
}

impl From<AllocError> for ConditionFault {
    ghost use Rattle.race_conditions.specs.declared.faults.ConditionFault.TheVariants.{NoMemory};

    ghost from_gives = { λ _ fault. fault ≡ NoMemory };

    fn from(_: AllocError) -> ConditionFault {
        ConditionFault::NoMemory
    }
}
