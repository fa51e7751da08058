//! What moves the gates of an execution.

use crate::steps::Step;
use access_model::GateError;
use cpu_words::WordName;
use freeze_levels::HookKind;
use gate_world::{Config, Op};
use std::alloc::Global;

/// The gates of an execution, with all their tasks: the core, which has them on plain words, or those that threads use, driven by one of them.
pub trait Driver: Drop {
    ghost use Rattle.std.specs.Prelude.{◌≡◌, ℕ, true, Bool, Option, Some, Err, IfOk, IfErr, OnOk};
    ghost use Rattle.access_model.specs.declared.errors.GateError.TheVariants.{Invalid, NoMemory};
    ghost use Rattle.cpu_words.specs.Names.{IsWord};
    ghost use Rattle.cpu_words.specs.Words.{read};
    ghost use Rattle.gate_transitions.specs.Answers.{begin_answer, step_answer, wanted_hook};
    ghost use Rattle.gate_world.specs.Configs.{IsWithin, extents_of};
    ghost use Rattle.gate_world.specs.Worlds.{World, happens, opening};
    ghost use Rattle.gate_world.specs.declared.entries.Entry.{TheVariants.{Begins, Steps}};
    ghost use Rattle.gate_world.specs.declared.config.Config.{Config as ConfigType};
    ghost use Rattle.cpu_words.specs.declared.names.WordName.{WordName as Name};

    /// Whether it is known which state they show once they are made.
    ghost is_known: { Bool };

    /// They are of this configuration and show this state.
    ghost shows: { Self → ConfigType → World → Type 0 };

    /// Their own value of a word; None where the configuration has no such word.
    ghost word_of: { Self → Name → Option ℕ };

    /// All words as they begin, and every task idle with nothing held. Invalid where a number of the configuration is out of its
    /// limits; NoMemory where a growth was refused.
    fn new(alloc: Global, config: Config) -> Result<Self, GateError>
        ensures opens { is_known ≡ true → IfOk result (λ driver. shows driver config opening) }
        ensures within { OnOk result (IsWithin config) }
        ensures invalid { ¬ IsWithin config → result ≡ Err Invalid }
        ensures memory { IsWithin config → IfErr result (λ e. e ≡ NoMemory) };

    /// Begins an operation of a task. Refused, and then nothing is changed, as the core's `begin` says.
    fn begin(&mut self, task: u8, op: Op) -> Result<(), GateError>
        ensures answer { (c : ConfigType) (w : World) → shows self.old c w → result ≡ begin_answer c w task op }
        ensures shows { (c : ConfigType) (w : World) → shows self.old c w → shows self.new c (happens c w (Begins task op)) };

    /// Does the next step of a task's operation, where a hook of the file system answers this; none of an idle task.
    fn step(&mut self, task: u8, hook: Result<(), u16>) -> Step
        ensures answer { (c : ConfigType) (w : World) → shows self.old c w → result ≡ step_answer c w task hook }
        ensures shows { (c : ConfigType) (w : World) → shows self.old c w → shows self.new c (happens c w (Steps task hook)) };

    /// The hook whose answer a task's next step reads; None where that is the same whatever a hook answers.
    fn wants_hook(&self, task: u8) -> Option<HookKind>
        ensures { (c : ConfigType) (w : World) → shows self.now c w → result ≡ wanted_hook c w task };

    /// The value of a word; None where the configuration has no such word.
    fn word(&self, name: WordName) -> Option<u64>
        ensures { result ≡ word_of self.now name };

    /// What they answer of a word is its value in the state which they show.
    ghost tells: { (driver : Self) (c : ConfigType) (w : World) (name : Name) → shows driver c w → IsWord (extents_of c) name →
        word_of driver name ≡ Some (read w.words name) };
}
