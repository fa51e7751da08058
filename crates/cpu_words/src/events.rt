//! What one step does to its word.

ghost use Rattle.std.specs.Prelude.{◌≡◌};
ghost use Rattle.cpu_words.specs.Touches.{left, event_of};

use crate::names::WordName;

/// What a step does to its word.
#[derive(Clone, Copy)]
pub enum Touch {
    Load,
    Store(u64),
    Add(u64),
    Sub(u64),
    Or(u64),
    And(u64),
    Swap(u64),
    /// Writes `put` where it finds `expect`, and else nothing.
    Cas { expect: u64, put: u64 },
}

/// A step that was done: one atomic touch of one word. `found` is the value before it, but for a store, which finds
/// nothing, the value that it wrote; `left` is the value after it.
#[derive(Clone, Copy)]
pub struct Event {
    pub word: WordName,
    pub touch: Touch,
    pub found: u64,
    pub left: u64,
}

impl Touch {
    /// What the touch leaves of a word in which it found this. Sums and differences wrap at 2^64.
    #[inline]
    pub fn left(self, found: u64) -> u64
        ensures { result ≡ left self found }
    {
        match self {
            Touch::Load => found,
            Touch::Store(new) | Touch::Swap(new) => new,
            Touch::Add(by) => found.wrapping_add(by),
            Touch::Sub(by) => found.wrapping_sub(by),
            Touch::Or(bits) => found | bits,
            Touch::And(bits) => found & bits,
            Touch::Cas { expect, put } if found == expect => put,
            Touch::Cas { .. } => found,
        }
    }

    /// The step of this touch on a word that held this value.
    #[inline(always)]
    pub fn event(self, word: WordName, value: u64) -> Event
        ensures { result ≡ event_of word self value }
    {
        let found = match self {
            Touch::Store(new) => new,
            _ => value,
        };
        Event {
            word,
            touch: self,
            found,
            left: self.left(found),
        }
    }
}
