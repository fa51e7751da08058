//! What is claimed of a race.

ghost use Rattle.std.specs.Prelude.{◌≡◌};
ghost use Rattle.race_conditions.specs.Claims.{kind_named, passes};
ghost use Rattle.race_conditions.specs.Conditions.{formula_of};
ghost use Rattle.race_conditions.specs.Named.{is_of_ends};

use crate::conditions::Condition;
use schedule_lines::words::is_word;

/// What is claimed of a condition. An end is a state from which no move that can still come changes what has been answered, nor the shown
/// model.
#[derive(Clone, Copy, PartialEq, Eq)]
pub enum ClaimKind {
    /// It holds at no end.
    Never,
    /// It holds at some end.
    Sometimes,
    /// It holds at each end.
    Always,
    /// It holds in each state.
    Invariant,
}

impl ClaimKind {
    /// Returns what a line claims that has this word first; None if it claims nothing.
    #[tactic(auto, unfolding(crate::specs::Claims::kind_named))]
    pub fn named(word: &[u8]) -> Option<ClaimKind>
        ensures { result ≡ kind_named word.now }
    {
        if is_word(word, "never") {
            Some(ClaimKind::Never)
        } else if is_word(word, "sometimes") {
            Some(ClaimKind::Sometimes)
        } else if is_word(word, "always") {
            Some(ClaimKind::Always)
        } else if is_word(word, "invariant") {
            Some(ClaimKind::Invariant)
        } else {
            None
        }
    }

    /// Whether a claim of this kind is so: where a schedule was found that meets it, of `Sometimes`; where none was found that breaks it, of
    /// the others.
    pub fn passes(self, is_found: bool) -> bool
        ensures { result ≡ passes self is_found }
    {
        match self {
            ClaimKind::Sometimes => is_found,
            ClaimKind::Never | ClaimKind::Always | ClaimKind::Invariant => !is_found,
        }
    }
}

/// A claim about a race.
#[derive(Drop)]
pub struct Claim {
    pub kind: ClaimKind,
    pub condition: Condition,
}

impl Claim {
    /// Whether the claim speaks of the ends alone, as far as they are told apart: it is no invariant, and names no word. `judge_led` takes such claims.
    pub fn is_of_ends(&self) -> bool
        ensures { result ≡ is_of_ends self.now.kind (formula_of self.now.condition) }
    {
        match self.kind {
            ClaimKind::Invariant => false,
            ClaimKind::Never | ClaimKind::Sometimes | ClaimKind::Always => {
                !self.condition.names_word()
            }
        }
    }
}
