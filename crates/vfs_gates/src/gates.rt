//! The gates: the words that all threads share, made and closed.

ghost use Rattle.std.specs.Prelude.{◌≡◌, ◌-◌, IfOk, IfErr, OnOk, None};
ghost use Rattle.gate_world.specs.Configs.{IsWithin};
ghost use Rattle.gate_steps.specs.Rules.{first_known};

use crate::buffers::SnapshotBuffers;
use crate::closed::Closed;
use crate::task::Task;
use access_model::GateError;
use gate_steps::call_events::GateWords;
use gate_world::Config;
use std::alloc::Global;

/// All words of the gates, which threads share by reference. From crates/example_backup/src/run.rt, a proved crate:
///
/// ```
/// let (gates, mut first) = Gates::new(alloc, config)?;
/// let second = first.split(alloc, &gates)?;
/// ```
pub struct Gates {
    pub(crate) words: GateWords,
}

/// Written out, so that a crate which lets gates go proves one call of this, and not anew what becomes of each word.
impl Drop for Gates {
    fn drop(self) {
        let Gates { words: _ } = self;
    }
}

impl Gates {
    ghost use Rattle.vfs_gates.specs.TaskStates.{task_state, IsFrom};
    ghost use Rattle.vfs_gates.specs.Ended.{HasAll, EndedWith, HasOpeningWords};
    ghost use Rattle.vfs_gates.specs.Held.{Rests};
    ghost use Rattle.access_model.specs.declared.errors.GateError.TheVariants.{Invalid, NoMemory, Order};

    /// All words as they begin, and the task with number 0, which has all other numbers to give.
    ///
    /// # Errors
    ///
    /// Invalid where a number of the configuration is out of its limits; NoMemory where a growth was refused.
    pub fn new(alloc: Global, config: Config) -> Result<(Gates, Task), GateError>
        ensures made { IfOk result
            (λ r. (r.0.words.config ≡ config) × (r.1 ≡ task_state r.0.words.table.shared.table_id config None None (first_known config))) }
        ensures words { IfOk result (λ r. HasOpeningWords config r.1.items) }
        ensures rests { IfOk result (λ r. Rests r.1) }
        ensures within { OnOk result (IsWithin config) }
        ensures invalid { ¬ IsWithin config → result ≡ Err Invalid }
        ensures memory { IsWithin config → IfErr result (λ e. e ≡ NoMemory) }
    {
        if !config.is_within() {
            return Err(GateError::Invalid);
        }
        let buffers = SnapshotBuffers::new(alloc, config.nodes)?;
        let (words, seat) = GateWords::open(alloc, config)?;
        Ok((Gates { words }, Task::first(config, seat, buffers)))
    }

    /// The words as they were at the end, where this task is the only one left: all other numbers are its to give. They are left by a schedule
    /// that goes on from all that the task has seen, and so from all that was seen by those that were joined to it.
    ///
    /// # Errors
    ///
    /// Order, with both given back as they were, unless the task is idle, holds nothing and has all other numbers.
    pub fn close(self, task: Task) -> Result<Closed, (GateError, Gates, Task)>
        requires { IsFrom task self }
        ensures closed { IfOk result (λ c. HasAll task × (c.config ≡ self.words.config) × EndedWith c.config c.words task.items task.seen) }
        ensures refused { IfErr result (λ e. (e.0 ≡ Order) × (e.1 ≡ self) × (e.2 ≡ task) × ¬ HasAll task) }
    {
        if !task.has_all() {
            return Err((GateError::Order, self, task));
        }
        let Gates { words } = self;
        let config = words.config;
        Ok(Closed {
            config,
            closed: words.close(task.into_seat()),
        })
    }
}
