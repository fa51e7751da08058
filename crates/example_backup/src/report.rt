//! What a run tells.

use std::fmt;

/// What the two tasks have done, each with its number.
#[derive(Clone, Copy)]
pub struct Report {
    /// The number of the writer's task.
    pub writer: u8,
    /// How often it wrote.
    pub writes: u32,
    /// The number of the backup's task.
    pub backup: u8,
    /// How many copies it made.
    pub copies: u32,
    /// How many of these were torn.
    pub torn: u32,
    /// The number of the task that copied once more at the end.
    pub last: u8,
    /// Whether that copy, which has every write, was torn; None where it was refused.
    pub last_torn: Option<bool>,
}

impl fmt::Display for Report {
    ghost use Rattle.std.specs.Prelude.{Some, ◌++◌, codes};
    ghost use Rattle.std.specs.Fmt.{decimal};

    ghost output = { λ told. Some (decimal told.writes ++ (codes " writes\n" ++ (decimal told.copies ++ (codes " copies, "
        ++ (decimal told.torn ++ codes " of them torn"))))) };

    fn fmt<W: fmt::Write>(&self, f: &mut fmt::Formatter<W>) -> fmt::Result {
        let writes = self.writes;
        let copies = self.copies;
        let torn = self.torn;
        write!(f, "{writes} writes\n{copies} copies, {torn} of them torn")
    }
}
