//! How many of each there are.

ghost use Rattle.std.specs.Prelude.{◌↔◌, ◌≤◌, IsTrue};
ghost use Rattle.cpu_words.specs.Names.{HasRow, IsWord};

use cpu_words::{WordName, WordRow};

/// How many tasks (1 to 64), processors (1 to 64), mounts (1 to 8) and nodes (2 to 64, the root counted) there are, and how
/// many blocks all files may have together.
#[derive(Clone, Copy, PartialEq, Eq, Debug)]
pub struct Config {
    pub tasks: u8,
    pub processors: u8,
    pub mounts: u8,
    pub nodes: u8,
    pub capacity: u32,
}

fn is_between(least: u8, number: u8, most: u8) -> bool
    ensures { IsTrue result ↔ ((least ≤ number) × (number ≤ most)) }
{
    least <= number && number <= most
}

impl Config {
    ghost use Rattle.gate_world.specs.Configs.{IsWithin, extents_of};

    /// Whether the numbers are within the limits.
    pub fn is_within(self) -> bool
        ensures { IsTrue result ↔ IsWithin self }
    {
        is_between(1, self.tasks, 64)
            && is_between(1, self.processors, 64)
            && is_between(1, self.mounts, 8)
            && is_between(2, self.nodes, 64)
    }

    /// Whether there is that word.
    pub fn has_word(self, name: WordName) -> bool
        ensures { IsTrue result ↔ IsWord (extents_of self) name }
    {
        self.has_row(name.row())
    }

    fn has_row(self, row: WordRow) -> bool
        ensures { IsTrue result ↔ HasRow (extents_of self) row }
    {
        match row {
            WordRow::OfAll { .. } => true,
            WordRow::OfMount { mount, .. } => mount < self.mounts,
            WordRow::CountOfMount { mount, cpu, .. } => mount < self.mounts
                && cpu < self.processors,
            WordRow::OfLevel { level, .. } => (1..=3).contains(&level),
            WordRow::CountOfLevel { level, cpu, .. } => {
                (1..=3).contains(&level) && cpu < self.processors
            }
            WordRow::OfTask { task, .. } => task < self.tasks,
            WordRow::OfNode { node, .. } => node < self.nodes,
        }
    }
}
