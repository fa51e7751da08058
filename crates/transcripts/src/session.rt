//! What a schedule drives: the gates, and the model beside them; and what is printed of a step, and of a run.

ghost use Rattle.std.specs.Prelude.{◌≡◌, ◌≤◌, ◌<◌, ◌++◌, true, false, IsOk, IfOk, IfErr, OnOk, OnErr, Some};
ghost use Rattle.schedule_lines.specs.Printed.{Prints};
ghost use Rattle.schedule_lines.specs.declared.faults.Fault.TheVariants.{Refused};
ghost use Rattle.transcripts.specs.Printing.{step_text, reply_after, ended_text, is_waiting};
ghost use Rattle.access_model.specs.declared.errors.GateError.TheVariants.{Invalid, NoMemory};

use access_model::{GateError, Holder};
use cpu_words::WordName;
use gate_transitions::{Driver, Progress, Step};
use gate_world::{Config, Op};
use model_state::Model;
use schedule_lines::{Fault, Output};
use schedule_text::{HookFailure, Request, TaskCommand};
use std::alloc::{AllocError, Global};

/// How many steps a line `run` does at most.
pub const EVENTS: u16 = 1_000;

/// The gates, moved step by step, and the model, moved by the actions that the steps add.
#[derive(Drop)]
pub struct Session<D> {
    config: Config,
    driver: D,
    model: Model,
}

/// How far a `run` came: how many steps it did, and how the operation stands after the last one.
#[derive(Clone, Copy)]
pub struct Ran {
    pub events: u16,
    pub progress: Progress,
}

/// A step of the gates, and whether the model allows the action that it adds; a step that adds none is allowed.
#[derive(Clone, Copy)]
pub struct JudgedStep {
    pub step: Step,
    pub is_allowed: bool,
}

/// A growth that was refused.
pub fn no_memory(_error: AllocError) -> Fault
    ensures { result ≡ Refused NoMemory }
{
    Fault::Refused(GateError::NoMemory)
}

/// Whether there was memory for all that was printed.
pub fn settled(out: &Output) -> Result<(), Fault>
    ensures whole { OnOk result (out.now.is_whole ≡ true) }
    ensures refused { OnErr result (out.now.is_whole ≡ false) }
    ensures memory { IfErr result (λ fault. fault ≡ Refused NoMemory) }
{
    out.settled().map_err(no_memory)
}

impl<D: Driver> Session<D> {
    ghost use Rattle.gate_transitions.specs.Answers.{begin_answer, step_answer};
    ghost use Rattle.gate_world.specs.declared.entries.Entry.{TheVariants.{Begins, Steps}};
    ghost use Rattle.transcripts.specs.Limits.{is_config};
    ghost use Rattle.transcripts.specs.Sessions.{ShowsPlay};
    ghost use Rattle.transcripts.specs.Transcript.{ReplayState, opening_play, played, used_now, begin_text, hook_answer, run_of, command_outcome, request_outcome, word_text, texts_of, words_of_all, mount_words, level_words, printed_words, printed_tree_words, words_text, tree_words_text, count_up, model_text, freezes_text, freeze_line, closed_line, task_text, tree_line, held_line, level_line, open_line};
    ghost use Rattle.access_model.specs.Histories.{end_of};
    ghost use Rattle.cpu_words.specs.Names.{IsWord};
    ghost use Rattle.cpu_words.specs.declared.names.WordName.TheVariants.{Section as SectionWord, Node as NodeWord, Kids as KidsWord};
    ghost use Rattle.cpu_words.specs.Words.{read};
    ghost use Rattle.gate_world.specs.Configs.{extents_of};
    ghost use Rattle.schedule_text.specs.declared.commands.Request.TheVariants.{Words as WordsAsked, Tree as TreeAsked};
    ghost use Rattle.std.specs.List.{flat_map};

    /// All tasks idle, and the model as it opens.
    pub fn new(alloc: Global, config: Config) -> Result<Session<D>, Fault>
        ensures opens { D.is_known ≡ true → IfOk result (λ session. ShowsPlay D.shows session (opening_play config)) }
        ensures within { OnOk result (is_config config ≡ true) }
        ensures invalid { is_config config ≡ false → result ≡ Err (Refused Invalid) }
        ensures memory { is_config config ≡ true → IfErr result (λ fault. fault ≡ Refused NoMemory) }
    {
        let driver = D::new(alloc, config).map_err(Fault::Refused)?;
        let (tasks, mounts, nodes) = (config.tasks, config.mounts, config.nodes);
        let model = Model::new(alloc, tasks, mounts, nodes, config.capacity).map_err(
            Fault::Refused,
        )?;
        Ok(Session {
            config,
            driver,
            model,
        })
    }

    /// How many tasks there are.
    pub fn tasks(&self) -> u8
        ensures { (p : ReplayState) → ShowsPlay D.shows self.now p → result ≡ p.config.tasks }
    {
        self.config.tasks
    }

    /// The gates.
    pub fn gates(&self) -> &D
        ensures { (p : ReplayState) → ShowsPlay D.shows self.now p → D.shows result.now p.config p.world }
    {
        &self.driver
    }

    /// Does what is asked, and prints what it is to print.
    pub fn do_request(&mut self, request: Request, out: &mut Output) -> Result<(), Fault>
        ensures words { request ≡ WordsAsked → OnOk result (out.new.bytes.items ≡ out.old.bytes.items ++
            texts_of (D.word_of self.old.driver) (printed_words self.old.config)) }
        ensures tree { request ≡ TreeAsked → OnOk result (out.new.bytes.items ≡ out.old.bytes.items ++
            texts_of (D.word_of self.old.driver) (printed_tree_words self.old.config)) }
        ensures prints { (p : ReplayState) → ShowsPlay D.shows self.old p →
            OnOk result (out.new.bytes.items ≡ out.old.bytes.items ++ (request_outcome p request).printed) }
        ensures shows { (p : ReplayState) → ShowsPlay D.shows self.old p → OnOk result (ShowsPlay D.shows self.new (request_outcome p request).play) }
        ensures memory { (p : ReplayState) → ShowsPlay D.shows self.old p → IfErr result (λ fault. fault ≡ Refused NoMemory) }
    {
        match request {
            Request::Words => {
                self.print_words(out);
                settled(out)
            }
            Request::Tree => {
                self.print_tree_words(out);
                settled(out)
            }
            Request::Model => {
                self.print_model(out);
                settled(out)
            }
            Request::Task { task, command } => self.do_command(task, command, out),
        }
    }

    /// Does what a line asks of a task, and prints what it is to print.
    pub fn do_command(
        &mut self,
        task: u8,
        command: TaskCommand,
        out: &mut Output,
    ) -> Result<(), Fault>
        ensures prints { (p : ReplayState) → ShowsPlay D.shows self.old p →
            OnOk result (out.new.bytes.items ≡ out.old.bytes.items ++ (command_outcome p task command).printed) }
        ensures shows { (p : ReplayState) → ShowsPlay D.shows self.old p → OnOk result (ShowsPlay D.shows self.new (command_outcome p task command).play) }
        ensures memory { (p : ReplayState) → ShowsPlay D.shows self.old p → IfErr result (λ fault. fault ≡ Refused NoMemory) }
    {
        match command {
            TaskCommand::Begin(op) => self.begin(task, op, out),
            TaskCommand::Step { hook } => {
                let step = self.step(task, hook)?;
                print_step(out, task, step, self.used());
                settled(out)
            }
            TaskCommand::Run { failure } => {
                let ran = self.run(task, failure)?;
                print_ended(out, task, ran.progress, self.used());
                settled(out)
            }
        }
    }

    /// Begins an operation of a task, and prints the refusal of one that can't begin.
    pub fn begin(&mut self, task: u8, op: Op, out: &mut Output) -> Result<(), Fault>
        ensures prints { (p : ReplayState) → ShowsPlay D.shows self.old p →
            OnOk result (out.new.bytes.items ≡ out.old.bytes.items ++ begin_text task (begin_answer p.config p.world task op)) }
        ensures shows { (p : ReplayState) → ShowsPlay D.shows self.old p → ShowsPlay D.shows self.new (played p (Begins task op)) }
        ensures memory { IfErr result (λ fault. fault ≡ Refused NoMemory) }
    {
        match self.try_begin(task, op) {
            Ok(()) => Ok(()),
            Err(refusal) => {
                out.refused_line(task, refusal);
                settled(out)
            }
        }
    }

    /// Begins an operation of a task, and prints nothing.
    ///
    /// # Errors
    ///
    /// The refusal of an operation that can't begin; then nothing has changed.
    pub fn try_begin(&mut self, task: u8, op: Op) -> Result<(), GateError>
        ensures answer { (p : ReplayState) → ShowsPlay D.shows self.old p → result ≡ begin_answer p.config p.world task op }
        ensures shows { (p : ReplayState) → ShowsPlay D.shows self.old p → ShowsPlay D.shows self.new (played p (Begins task op)) }
    {
        self.driver.begin(task, op)
    }

    /// Does one step, and the action that it adds.
    ///
    /// # Errors
    ///
    /// Invalid, if the model doesn't allow the action. Gates that are known to show a state add no such action.
    pub fn step(&mut self, task: u8, hook: Result<(), u16>) -> Result<Step, Fault>
        ensures answer { (p : ReplayState) → ShowsPlay D.shows self.old p → result ≡ Ok (step_answer p.config p.world task hook) }
        ensures shows { (p : ReplayState) → ShowsPlay D.shows self.old p → ShowsPlay D.shows self.new (played p (Steps task hook)) }
        ensures refused { IfErr result (λ fault. fault ≡ Refused Invalid) }
    {
        let judged = self.step_judged(task, hook);
        if judged.is_allowed {
            Ok(judged.step)
        } else {
            Err(Fault::Refused(GateError::Invalid))
        }
    }

    /// Does one step, and the action that it adds, if the model allows it. Else the model stays as it was, and the gates have done the step
    /// all the same: so a build that isn't proved can be looked at behind its first wrong step. Gates that are known to show a state add no
    /// such action.
    #[inline(always)]
    pub fn step_judged(&mut self, task: u8, hook: Result<(), u16>) -> JudgedStep
        ensures step { (p : ReplayState) → ShowsPlay D.shows self.old p → result.step ≡ step_answer p.config p.world task hook }
        ensures allowed { (p : ReplayState) → ShowsPlay D.shows self.old p → result.is_allowed ≡ true }
        ensures shows { (p : ReplayState) → ShowsPlay D.shows self.old p → ShowsPlay D.shows self.new (played p (Steps task hook)) }
    {
        let step = self.driver.step(task, hook);
        let is_allowed = match step.action {
            Some(action) => self.model.apply(task, &action).is_ok(),
            None => true,
        };
        JudgedStep { step, is_allowed }
    }

    /// Does one step, and the action that it adds. Returns only how the operation stands then, so that a run copies no step.
    ///
    /// # Errors
    ///
    /// Invalid, if the model doesn't allow the action. Gates that are known to show a state add no such action.
    #[inline(always)]
    fn advance(&mut self, task: u8, hook: Result<(), u16>) -> Result<Progress, Fault>
        ensures answer { (p : ReplayState) → ShowsPlay D.shows self.old p → result ≡ Ok (step_answer p.config p.world task hook).progress }
        ensures shows { (p : ReplayState) → ShowsPlay D.shows self.old p → ShowsPlay D.shows self.new (played p (Steps task hook)) }
        ensures refused { IfErr result (λ fault. fault ≡ Refused Invalid) }
    {
        let judged = self.step_judged(task, hook);
        if judged.is_allowed {
            Ok(judged.step.progress)
        } else {
            Err(Fault::Refused(GateError::Invalid))
        }
    }

    /// Goes on to the reply, or to the first step that finds that the task has to wait, or to the last step that one line
    /// may do. A hook may fail; all others answer Ok.
    fn run(&mut self, task: u8, failure: Option<HookFailure>) -> Result<Ran, Fault>
        ensures few { IfOk result (λ ran. ran.events ≤ 1000) }
        ensures done { (p : ReplayState) → ShowsPlay D.shows self.old p → IsOk result }
        ensures progress { (p : ReplayState) → ShowsPlay D.shows self.old p → IfOk result (λ ran. ran.progress ≡ (run_of p task failure).0) }
        ensures shows { (p : ReplayState) → ShowsPlay D.shows self.old p → ShowsPlay D.shows self.new (run_of p task failure).1 }
    {
        for events in 0..EVENTS {
            let hook = self.hook_answer(task, failure);
            let progress = self.advance(task, hook)?;
            match progress {
                Progress::Going => {}
                Progress::Idle => return Ok(Ran { events, progress }),
                Progress::Waiting | Progress::Done(_) => {
                    return Ok(Ran {
                        events: events + 1,
                        progress,
                    });
                }
            }
        }
        Ok(Ran {
            events: EVENTS,
            progress: Progress::Going,
        })
    }

    /// What the hook answers that the next step of a task asks, where one may fail and all others answer Ok. In line, since a run asks before
    /// each step, and in most runs none may fail.
    #[inline(always)]
    pub fn hook_answer(&self, task: u8, failure: Option<HookFailure>) -> Result<(), u16>
        ensures { (p : ReplayState) → ShowsPlay D.shows self.now p → result ≡ hook_answer p task failure }
    {
        match failure {
            Some(failure) => failure.answer(self.driver.wants_hook(task)),
            None => Ok(()),
        }
    }

    /// The value of a word; None where the configuration has no such word.
    pub fn word(&self, name: WordName) -> Option<u64>
        ensures own { result ≡ D.word_of self.now.driver name }
        ensures shown { (p : ReplayState) → ShowsPlay D.shows self.now p → IsWord (extents_of p.config) name → result ≡ Some (read p.world.words name) }
    {
        self.driver.word(name)
    }

    /// The model, moved by all actions so far.
    pub fn model(&self) -> &Model
        ensures { result.now ≡ self.now.model }
    {
        &self.model
    }

    /// The blocks charged.
    pub fn used(&self) -> u64
        ensures { (p : ReplayState) → ShowsPlay D.shows self.now p → result ≡ used_now p }
    {
        self.driver.word(WordName::Used).unwrap_or(0)
    }

    /// Prints the words that aren't 0, up to the last section: each with what the gates tell of it.
    pub fn print_words(&self, out: &mut Output)
        ensures own { Prints out.old out.new (texts_of (D.word_of self.now.driver) (printed_words self.now.config)) }
        ensures shown { (p : ReplayState) → ShowsPlay D.shows self.now p → Prints out.old out.new (words_text p) }
    {
        self.print_words_of_all(out);
        self.print_words_of_mounts(out);
        self.print_level_words(1, out);
        self.print_level_words(2, out);
        self.print_level_words(3, out);
        self.print_sections(out);
    }

    fn print_words_of_all(&self, out: &mut Output)
        ensures { Prints out.old out.new (texts_of (D.word_of self.now.driver) words_of_all) }
    {
        self.print_word(WordName::Umount, out);
        self.print_word(WordName::Stage, out);
        self.print_word(WordName::Holders, out);
        self.print_word(WordName::SbFlags, out);
        self.print_word(WordName::Remount, out);
        self.print_word(WordName::Removed, out);
    }

    fn print_words_of_mounts(&self, out: &mut Output)
        ensures { Prints out.old out.new (
            flat_map (λ m. texts_of (D.word_of self.now.driver) (mount_words self.now.config m)) (count_up self.now.config.mounts)) }
    {
        for mount in 0..self.config.mounts {
            self.print_mount_words(mount, out);
        }
    }

    fn print_mount_words(&self, mount: u8, out: &mut Output)
        ensures { Prints out.old out.new (texts_of (D.word_of self.now.driver) (mount_words self.now.config mount)) }
    {
        self.print_word(WordName::MountFlags(mount), out);
        for cpu in 0..self.config.processors {
            self.print_word(WordName::MountCount(mount, cpu), out);
        }
    }

    fn print_level_words(&self, level: u8, out: &mut Output)
        ensures { Prints out.old out.new (texts_of (D.word_of self.now.driver) (level_words self.now.config level)) }
    {
        self.print_word(WordName::Block(level), out);
        self.print_word(WordName::Sync(level), out);
        for cpu in 0..self.config.processors {
            self.print_word(WordName::LevelCount(level, cpu), out);
        }
    }

    fn print_sections(&self, out: &mut Output)
        ensures { Prints out.old out.new (
            flat_map (λ t. word_text (SectionWord t) (D.word_of self.now.driver (SectionWord t))) (count_up self.now.config.tasks)) }
    {
        for task in 0..self.config.tasks {
            self.print_word(WordName::Section(task), out);
        }
    }

    /// Prints the words of the tree that aren't 0: each with what the gates tell of it.
    pub fn print_tree_words(&self, out: &mut Output)
        ensures own { Prints out.old out.new (texts_of (D.word_of self.now.driver) (printed_tree_words self.now.config)) }
        ensures shown { (p : ReplayState) → ShowsPlay D.shows self.now p → Prints out.old out.new (tree_words_text p) }
    {
        self.print_word(WordName::Used, out);
        self.print_node_words(out);
        self.print_kids(out);
    }

    fn print_node_words(&self, out: &mut Output)
        ensures { Prints out.old out.new (
            flat_map (λ n. word_text (NodeWord n) (D.word_of self.now.driver (NodeWord n))) (count_up self.now.config.nodes)) }
    {
        for node in 0..self.config.nodes {
            self.print_word(WordName::Node(node), out);
        }
    }

    fn print_kids(&self, out: &mut Output)
        ensures { Prints out.old out.new (
            flat_map (λ n. word_text (KidsWord n) (D.word_of self.now.driver (KidsWord n))) (count_up self.now.config.nodes)) }
    {
        for node in 0..self.config.nodes {
            self.print_word(WordName::Kids(node), out);
        }
    }

    /// Prints a word where it isn't 0.
    fn print_word(&self, name: WordName, out: &mut Output)
        ensures { Prints out.old out.new (word_text name (D.word_of self.now.driver name)) }
    {
        match self.driver.word(name) {
            None | Some(0) => {}
            Some(value) => out.word_line(name, value),
        }
    }

    /// Prints the model.
    #[tactic(auto, unfolding(crate::specs::Transcript::model_text))]
    pub fn print_model(&self, out: &mut Output)
        ensures { (p : ReplayState) → ShowsPlay D.shows self.now p → Prints out.old out.new (model_text p) }
    {
        let (stage, passed) = (self.model.stage(), self.model.passed());
        out.model_line(stage, passed, self.model.sb_ro());
        self.print_freezes(out);
        self.print_closed_mounts(out);
        self.print_holders(out);
        self.print_tree(out);
    }

    /// Prints who holds a freeze.
    fn print_freezes(&self, out: &mut Output)
        ensures { (p : ReplayState) → ShowsPlay D.shows self.now p → Prints out.old out.new (freezes_text (end_of p.done)) }
    {
        self.print_freeze(Holder::Kernel, out);
        self.print_freeze(Holder::User, out);
    }

    fn print_freeze(&self, holder: Holder, out: &mut Output)
        ensures { (p : ReplayState) → ShowsPlay D.shows self.now p → Prints out.old out.new (freeze_line (end_of p.done) holder) }
    {
        if self.model.holds(holder) {
            out.holder_line(holder);
        }
    }

    /// Prints the mounts that are read-only.
    fn print_closed_mounts(&self, out: &mut Output)
        ensures { (p : ReplayState) → ShowsPlay D.shows self.now p →
            Prints out.old out.new (flat_map (closed_line (end_of p.done)) (count_up p.config.mounts)) }
    {
        for mount in 0..self.config.mounts {
            if self.model.mount_ro(mount) {
                out.read_only_mount_line(mount);
            }
        }
    }

    /// Prints what the tasks hold.
    fn print_holders(&self, out: &mut Output)
        ensures { (p : ReplayState) → ShowsPlay D.shows self.now p →
            Prints out.old out.new (flat_map (task_text p.config (end_of p.done)) (count_up p.config.tasks)) }
    {
        for task in 0..self.config.tasks {
            self.print_held(task, out);
        }
    }

    /// Prints the nodes that are not free.
    fn print_tree(&self, out: &mut Output)
        ensures { (p : ReplayState) → ShowsPlay D.shows self.now p →
            Prints out.old out.new (flat_map (tree_line (end_of p.done)) (count_up p.config.nodes)) }
    {
        for node in 0..self.config.nodes {
            if let Some(info) = self.model.tree(node) {
                out.node_line(node, info);
            }
        }
    }

    /// Prints what a task holds.
    fn print_held(&self, task: u8, out: &mut Output)
        ensures { (p : ReplayState) → ShowsPlay D.shows self.now p → task < p.config.tasks →
            Prints out.old out.new (task_text p.config (end_of p.done) task) }
    {
        self.print_held_mounts(task, out);
        self.print_held_level(task, 1, out);
        self.print_held_level(task, 2, out);
        self.print_held_level(task, 3, out);
        self.print_open_files(task, out);
    }

    fn print_held_mounts(&self, task: u8, out: &mut Output)
        ensures { (p : ReplayState) → ShowsPlay D.shows self.now p → task < p.config.tasks →
            Prints out.old out.new (flat_map (held_line (end_of p.done) task) (count_up p.config.mounts)) }
    {
        for mount in 0..self.config.mounts {
            let count = self.model.held_mount(task, mount);
            if count > 0 {
                out.held_mount_line(task, mount, count);
            }
        }
    }

    fn print_open_files(&self, task: u8, out: &mut Output)
        ensures { (p : ReplayState) → ShowsPlay D.shows self.now p → task < p.config.tasks →
            Prints out.old out.new (flat_map (open_line (end_of p.done) task) (count_up p.config.nodes)) }
    {
        for node in 0..self.config.nodes {
            if self.model.has_open(task, node) {
                out.open_file_line(task, node);
            }
        }
    }

    fn print_held_level(&self, task: u8, level: u8, out: &mut Output)
        ensures { (p : ReplayState) → ShowsPlay D.shows self.now p → task < p.config.tasks → 1 ≤ level → level ≤ 3 →
            Prints out.old out.new (level_line (end_of p.done) task level) }
    {
        if self.model.held_level(task, level) {
            out.held_level_line(task, level);
        }
    }
}

/// The step, and then the reply where there is one; or that the task is idle. `used` is the blocks charged now.
#[tactic(auto, unfolding(crate::specs::Printing::step_text))]
pub fn print_step(out: &mut Output, task: u8, step: Step, used: u64)
    ensures { Prints out.old out.new (step_text task step used) }
{
    match step.event {
        None => out.idle_line(task),
        Some(event) => {
            out.event_line(task, event, step.action, is_waiting(step.progress));
            print_reply_after(out, task, step.progress, used);
        }
    }
}

/// Whether the task has to look or try again.
fn is_waiting(progress: Progress) -> bool
    ensures { result ≡ is_waiting progress }
{
    match progress {
        Progress::Waiting => true,
        Progress::Idle | Progress::Going | Progress::Done(_) => false,
    }
}

/// The reply where the operation has ended.
fn print_reply_after(out: &mut Output, task: u8, progress: Progress, used: u64)
    ensures { Prints out.old out.new (reply_after task progress used) }
{
    match progress {
        Progress::Done(answer) => out.answer_line(task, answer, used),
        Progress::Idle | Progress::Going | Progress::Waiting => {}
    }
}

/// How a run ended: by a reply, by having to wait or to go on, or at once, as the task was idle.
#[tactic(auto, unfolding(crate::specs::Printing::ended_text))]
pub fn print_ended(out: &mut Output, task: u8, progress: Progress, used: u64)
    ensures { Prints out.old out.new (ended_text task progress used) }
{
    match progress {
        Progress::Idle => out.idle_line(task),
        Progress::Going | Progress::Waiting => out.waiting_line(task),
        Progress::Done(answer) => out.answer_line(task, answer, used),
    }
}
