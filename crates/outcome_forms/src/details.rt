//! What is printed of the outcomes of a race, and of which.

ghost use Rattle.std.specs.Prelude.{◌≡◌, ◌↔◌, IsTrue, false};
ghost use Rattle.outcome_forms.specs.Told.{AsksNone, margin_of, mark_of};

use replay_forms::{Form, Look, Style};

/// How wide all columns are together: with the two spaces before them 100.
const WIDTH: usize = 98;

/// In which form a schedule of each outcome is printed, if it is.
#[derive(Clone, Copy)]
pub enum Schedules {
    Untold,
    /// In lines that a replay takes: all others are comments.
    Lines,
    /// In a column for each task, as it is replayed.
    Columns,
}

impl Schedules {
    /// Returns what stands before the line of an outcome.
    pub fn mark(self) -> &'static [u8]
        ensures { result.now ≡ mark_of self }
    {
        match self {
            Schedules::Untold | Schedules::Columns => b"",
            Schedules::Lines => b"# ",
        }
    }

    /// Returns what stands before each line under it.
    pub fn margin(self) -> &'static [u8]
        ensures { result.now ≡ margin_of self }
    {
        match self {
            Schedules::Untold | Schedules::Columns => b"  ",
            Schedules::Lines => b"",
        }
    }

    /// Returns the form in which the steps of a schedule are shown; None if its own lines are printed.
    pub fn form(self) -> Option<Form> {
        match self {
            Schedules::Untold | Schedules::Lines => None,
            Schedules::Columns => Some(Form::Columns { width: WIDTH }),
        }
    }

    /// Returns whether a schedule is printed.
    pub fn are_told(self) -> bool {
        !matches!(self, Schedules::Untold)
    }
}

/// What is printed of each outcome under its line.
#[derive(Clone, Copy)]
pub struct Details {
    pub schedules: Schedules,
    /// Whether the final model is printed, or how many there are.
    pub model: bool,
    /// How words and their values are printed in columns, and in records and pictures.
    pub style: Style,
}

impl Details {
    /// This form, in the style that is asked for.
    pub(crate) fn look(self, form: Form) -> Look {
        Look {
            form,
            style: self.style,
        }
    }

    /// Whether nothing is asked for.
    pub(crate) fn are_none(self) -> bool
        ensures { IsTrue result ↔ AsksNone self }
    {
        matches!(self.schedules, Schedules::Untold) && !self.model
    }
}
