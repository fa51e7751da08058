//! A transition of a level's sync word: one load, and one compare-exchange to what the transition makes of the word loaded.

ghost use Rattle.std.specs.Prelude.{◌≡◌, Option};
ghost use Rattle.percpu_rwsem.specs.declared.sync_word.SyncWord.{SyncWord as SyncWordType};
ghost use Rattle.percpu_rwsem.specs.Transitions.{transition_next, transition_after};

use crate::sync_word::{GpState, SyncWord};
use cpu_words::{Touch, WordName};

/// What the next step of a transition is. Which transition it is, its phase knows.
#[derive(Clone, Copy, PartialEq, Eq)]
pub enum Transition {
    /// Loads the word.
    Loads,
    /// Puts `to`, where it still finds `from`, which it loaded.
    Exchanges { from: SyncWord, to: SyncWord },
}

/// What a step of a transition leads to.
#[derive(Clone, Copy)]
pub enum TransitionNext {
    /// The transition goes on with this step.
    More(Transition),
    /// There is no such transition of the word that was loaded.
    Undefined,
    /// It is made, of a word in this state.
    Made(GpState),
}

impl Transition {
    /// The word and the touch of the next step, at a level.
    #[inline(always)]
    pub fn next(self, level: u8) -> (WordName, Touch)
        ensures { result ≡ transition_next level self }
    {
        let touch = match self {
            Transition::Loads => Touch::Load,
            Transition::Exchanges { from, to } => Touch::Cas {
                expect: from.pack(),
                put: to.pack(),
            },
        };
        (WordName::Sync(level), touch)
    }

    /// What comes after the step, which found this, of the transition that `on` makes. A number that is no word is loaded again, and
    /// so is one that another task changed before the exchange.
    #[inline(always)]
    pub fn after<F: FnOnce(SyncWord) -> Option<SyncWord>>(self, found: u64, on: F) -> TransitionNext
        requires { F.IsAlwaysCallable on }
        ensures { (makes : SyncWordType → Option SyncWordType) →
            ((from : SyncWordType) (to : Option SyncWordType) → F.post on from to → to ≡ makes from) →
            result ≡ transition_after makes self found }
    {
        match self {
            Transition::Loads => match SyncWord::unpack(found) {
                None => TransitionNext::More(Transition::Loads),
                Some(from) => match on(from) {
                    None => TransitionNext::Undefined,
                    Some(to) => TransitionNext::More(Transition::Exchanges { from, to }),
                },
            },
            Transition::Exchanges { from, .. } if found == from.pack() => {
                TransitionNext::Made(from.state)
            }
            Transition::Exchanges { .. } => TransitionNext::More(Transition::Loads),
        }
    }
}
