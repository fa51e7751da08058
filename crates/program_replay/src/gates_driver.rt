//! The gates that threads use, driven by one thread.

ghost use Rattle.std.specs.Prelude.{◌≡◌, ◌≢◌, ◌<◌, ◌≤◌, ◌+◌, ℕ, [], All, List, Some, Err, IfErr, IfOk, OnErr, OnOk, length, slice_index_or, vec_len};
ghost use Rattle.access_model.specs.declared.errors.GateError.TheVariants.{Invalid, NoMemory};
ghost use Rattle.cpu_words.specs.Names.{words_in_all};
ghost use Rattle.gate_transitions.specs.Answers.{asked_by, begin_answer, idle_step, step_answer, unless_refused, wanted_hook};
ghost use Rattle.gate_world.specs.Configs.{IsWithin};
ghost use Rattle.gate_world.specs.Worlds.{World, happens, opening};
ghost use Rattle.gate_world.specs.declared.config.Config.{Config as ConfigType};
ghost use Rattle.gate_world.specs.declared.entries.Entry.{Entry, TheVariants.{Begins, Steps}};
ghost use Rattle.gate_world.specs.declared.work.Phase.{Phase};
ghost use Rattle.gate_steps.specs.call_events.Grown.{HasSeen};
ghost use Rattle.program_replay.specs.Noted.{words_after};
ghost use Rattle.program_replay.specs.Shown.{IsNew};
ghost use Rattle.program_replay.specs.Standing.{AreGathered, HasMet, HasOnlySeen, with_begun};
ghost use Rattle.vfs_gates.specs.Splitting.{AreNumbered, Gives};
ghost use Rattle.gate_core.specs.Drivers.{listed_word};
ghost use Rattle.vfs_gates.specs.Stepped.{Stepped};
ghost use Rattle.vfs_gates.specs.TaskStates.{IsFrom, IsIdle, SeatedTask, own_number, refusal_at};

use access_model::GateError;
use cpu_words::{Event, WordName};
use freeze_levels::HookKind;
use gate_core::{Driver, Step, words_at_start};
use gate_world::{Config, Op};
use std::alloc::Global;
use vfs_gates::{Gates, Task};

/// The gates with a task for each number, none of which is ever joined, and the words as all steps have left them.
/// Gates that are open tell no word: another thread might change it. Here there is none. That shows after each step, when all tasks meet.
#[derive(Drop)]
pub struct GatesDriver {
    config: Config,
    gates: Gates,
    /// The task with number 0.
    first: Task,
    /// The others, in the order of their numbers.
    others: Vec<Task>,
    /// Each at its place.
    words: Vec<u64>,
    ghost first_from: { IsFrom first gates },
    ghost others_from: { All (λ task. IsFrom task gates) others.items },
    ghost whole: { vec_len words ≡ words_in_all },
}

impl GatesDriver {
    ghost use Rattle.program_replay.specs.Driven.{AreOthersKept, GatesShow, task_in, tasks_of};

    /// All words as they begin, and every task idle with nothing held. Refused as `Gates::new` is, then as `Task::split` is, and at
    /// last where there is no memory for the words.
    pub fn new(alloc: Global, config: Config) -> Result<GatesDriver, GateError>
        ensures opens { IfOk result (λ driver. GatesShow driver config opening) }
        ensures within { OnOk result (IsWithin config) }
        ensures invalid { ¬ IsWithin config → result ≡ Err Invalid }
        ensures memory { IsWithin config → IfErr result (λ e. e ≡ NoMemory) }
    {
        let (gates, mut first) = Gates::new(alloc, config)?;
        let others = split_all(alloc, &gates, &mut first, config.tasks)?;
        let words = words_at_start(alloc)?;
        Ok(GatesDriver {
            config,
            gates,
            first,
            others,
            words,
        })
    }

    /// Begins an operation of a task that there is.
    fn begin_there(&mut self, number: usize, op: Op) -> Result<(), GateError>
        requires there { number ≤ vec_len self.old.others }
        ensures answer { (t : SeatedTask) → result ≡ unless_refused (refusal_at op (task_in self.old number t)) }
        ensures begun { (t : SeatedTask) → OnOk result (task_in self.new number t ≡ with_begun op (task_in self.old number t)) }
        ensures refused { (t : SeatedTask) → OnErr result (task_in self.new number t ≡ task_in self.old number t) }
        ensures others { AreOthersKept number self.old self.new }
        ensures words { self.new.words ≡ self.old.words }
    {
        if number == 0 {
            self.first.begin(op)
        } else {
            self.others[number - 1].begin(op)
        }
    }

    /// Does the next step of a task that there is; none of an idle one.
    fn step_there(&mut self, number: usize, hook: Result<(), u16>) -> Step
        requires there { number ≤ vec_len self.old.others }
        ensures event { (t : SeatedTask) (phase : Phase) → (task_in self.old number t).phase ≡ Some phase →
            Stepped phase hook (task_in self.old number t) result (task_in self.new number t) }
        ensures idle { (t : SeatedTask) → IsIdle (task_in self.old number t) →
            (result ≡ idle_step) × (task_in self.new number t ≡ task_in self.old number t) }
        ensures others { AreOthersKept number self.old self.new }
        ensures words { self.new.words ≡ self.old.words }
    {
        if number == 0 {
            self.first.step(&self.gates, hook)
        } else {
            self.others[number - 1].step(&self.gates, hook)
        }
    }

    /// Lets all tasks meet after a step of one: the first meets that one, and then each other. So each knows that all stand where they stood.
    fn gather(&mut self, number: usize)
        requires there { number ≤ vec_len self.old.others }
        ensures gathered { AreGathered number (tasks_of self.old) (tasks_of self.new) }
        ensures config { self.new.config ≡ self.old.config }
        ensures words { self.new.words ≡ self.old.words }
    {
        if number > 0 {
            self.first.meet(&self.gates, &mut self.others[number - 1]);
        }
        meet_each(&self.gates, &mut self.first, self.others.as_mut_slice());
    }

    /// Notes what a step left of its word.
    fn note(&mut self, event: Event)
        ensures words { self.new.words.items ≡ words_after (Some event) self.old.words.items }
        ensures config { self.new.config ≡ self.old.config }
        ensures tasks { tasks_of self.new ≡ tasks_of self.old }
    {
        let place = event.word.place();
        if place < self.words.len() {
            self.words[place] = event.left;
        }
    }
}

/// The gates that threads use show the same states as the core, since no other thread moves them. Their words, which `words` and `tree` print, are
/// those of a list that each step moves.
impl Driver for GatesDriver {
    ghost use Rattle.std.specs.Prelude.{true};
    ghost use Rattle.program_replay.specs.Driven.{GatesShow};
    ghost use Rattle.program_replay.specs.Tells.{gates_tell};

    ghost is_known = { true };

    ghost shows = { GatesShow };

    ghost word_of = { λ driver. listed_word driver.config driver.words.items };

    ghost tells = { gates_tell };

    fn new(alloc: Global, config: Config) -> Result<GatesDriver, GateError> {
        GatesDriver::new(alloc, config)
    }

    /// Begins an operation of a task: from its next step on it is under way. Words and other tasks are as before.
    ///
    /// # Errors
    ///
    /// Invalid where there is no such task; else as `Task::begin` is. Then nothing is changed.
    fn begin(&mut self, task: u8, op: Op) -> Result<(), GateError> {
        let number = task as usize;
        if number > self.others.len() {
            return Err(GateError::Invalid);
        }
        self.begin_there(number, op)
    }

    /// Does the next step of a task's operation, and notes what it left of its word; none of a task that is idle or that there isn't.
    fn step(&mut self, task: u8, hook: Result<(), u16>) -> Step {
        let number = task as usize;
        if number > self.others.len() {
            return Step::idle();
        }
        let step = self.step_there(number, hook);
        if let Some(event) = step.event {
            self.note(event);
            self.gather(number);
        }
        step
    }

    /// The hook whose answer a task's next step reads; None where that is the same whatever a hook answers, and where there is no such
    /// task.
    fn wants_hook(&self, task: u8) -> Option<HookKind> {
        if task == 0 {
            self.first.wants_hook()
        } else {
            self.others.get(task as usize - 1)?.wants_hook()
        }
    }

    /// The value of a word, as the steps so far have left it; None where the configuration has no such word.
    fn word(&self, name: WordName) -> Option<u64> {
        if self.config.has_word(name) {
            self.words.get(name.place()).copied()
        } else {
            None
        }
    }
}

/// Lets the first task meet each other one.
fn meet_each(gates: &Gates, first: &mut Task, others: &mut [Task])
    requires first { IsFrom first.old gates.now }
    requires others { All (λ task. IsFrom task gates.now) others.old }
    ensures same { HasOnlySeen first.old first.new }
    ensures seen { (entries : List Entry) → HasSeen entries first.old.seen → HasSeen entries first.new.seen }
    ensures met { (k : ℕ) (t : SeatedTask) → k < length others.old →
        HasMet first.old (slice_index_or others.old k t) (slice_index_or others.new k t) }
{
    for other in others.iter_mut() {
        first.meet(gates, other);
    }
}

/// Makes a task for each number from 1 on, to which the first one gives it.
fn split_all(
    alloc: Global,
    gates: &Gates,
    first: &mut Task,
    count: u8,
) -> Result<Vec<Task>, GateError>
    requires from { IsFrom first.old gates.now }
    requires gives { Gives first.old 1 count }
    requires new { IsNew first.old }
    ensures first { OnOk result (IsFrom first.new gates.now) }
    ensures own { OnOk result (own_number first.new.items ≡ 0) }
    ensures stays { OnOk result (IsNew first.new) }
    ensures others { IfOk result (λ others. All (λ task. IsFrom task gates.now) others.items) }
    ensures count { IfOk result (λ others. 1 ≤ count → vec_len others + 1 ≡ count) }
    ensures numbers { IfOk result (λ others. AreNumbered 1 others.items) }
    ensures new { IfOk result (λ others. All IsNew others.items) }
    ensures memory { IfErr result (λ e. e ≡ NoMemory) }
{
    let mut others = Vec::new(alloc);
    for _number in 1..count {
        let other = first.split(alloc, gates)?;
        let Ok(()) = others.push(other) else {
            return Err(GateError::NoMemory);
        };
    }
    Ok(others)
}
