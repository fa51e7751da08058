//! What a condition reads of a state.

ghost use Rattle.std.specs.Prelude.{◌≡◌, ◌<◌, slice_get, slice_index};
ghost use Rattle.cpu_words.specs.Names.{IsWord, place};
ghost use Rattle.gate_core.specs.Memory.{Memory, seat_of};
ghost use Rattle.gate_world.specs.Configs.{extents_kept};
ghost use Rattle.races.specs.Races.{RaceStateIn};

use cpu_words::WordName;
use gate_world::{Accesses, Config};
use races::CallAnswers;

/// A state of a race, in whatever form it is kept.
pub trait StateView {
    /// The state that it is.
    ghost state: { Self → RaceStateIn Memory };

    /// The configuration.
    fn config(&self) -> Config
        ensures { result ≡ (state self.now).on.config };

    /// The value of a word that the configuration has.
    fn word(&self, name: WordName) -> u64
        requires { IsWord (extents_kept (state self.now).on.config) name }
        ensures { result ≡ slice_index (state self.now).on.words (place name) };

    /// What a task of the configuration holds.
    fn accesses(&self, task: u8) -> Accesses
        requires { task < (state self.now).on.config.tasks }
        ensures { result ≡ (seat_of (state self.now).on task).accesses };

    /// How far a task has come; None where there is no such task.
    fn course(&self, task: u8) -> Option<CallAnswers>
        ensures { result ≡ slice_get (state self.now).courses task };
}
