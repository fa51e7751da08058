//! What a line asks for, and how it is read from the line's words.

ghost use Rattle.std.specs.Prelude.{◌≡◌, ◌≤◌, ◌+◌, List, ℕ, Ok, Err, IfOk, IfErr, length};
ghost use Rattle.gate_world.specs.declared.operations.Op.{Op as OpType};
ghost use Rattle.schedule_text.specs.Commands.{holder_named, hook_named, kind_named};
ghost use Rattle.schedule_text.specs.declared.commands.TaskCommand.TheVariants.{Begin};
ghost use Rattle.schedule_lines.specs.Words.{first_word, after_word, word_count};
ghost use Rattle.schedule_text.specs.Parsing.{parsed, is_skipped, config_line, config_of, command_line, alone, task_line, task_of, arguments_of, two_at, change_of, create_of, grow_of, step_of, run_of, number_at, byte_at, code_at, hook_at, holder_at, holder_given, kind_at, read_only_at, read_only_of};

use crate::verbs::Verb;
use access_model::{Holder, Kind};
use freeze_levels::HookKind;
use gate_world::{Config, Op};
use schedule_lines::Fault;
use schedule_lines::numbers::{byte_of, code_of, is_digits, number_of};
use schedule_lines::words::{after_word, first_word, is_word, split_word, word_count};

/// That a hook answers a code, from 1 to 65,535, in place of Ok.
#[derive(Clone, Copy)]
pub struct HookFailure {
    pub hook: HookKind,
    pub code: u16,
}

/// What is asked of a task.
#[derive(Clone, Copy)]
pub enum TaskCommand {
    /// To begin an operation.
    Begin(Op),
    /// To do one step, where a hook answers this.
    Step { hook: Result<(), u16> },
    /// To go on to the reply, where one hook may fail and all others answer Ok.
    Run { failure: Option<HookFailure> },
}

/// What is asked of the gates, once they are set up.
#[derive(Clone, Copy)]
pub enum Request {
    /// To print the words of memory that aren't 0.
    Words,
    /// To print the words of the tree that aren't 0.
    Tree,
    /// To print the model.
    Model,
    /// Something of a task.
    Task { task: u8, command: TaskCommand },
}

/// What a line asks for.
#[derive(Clone, Copy)]
pub enum Line {
    /// Nothing: an empty line or a comment.
    Skipped,
    /// To set all tasks up.
    Config(Config),
    /// Something of the gates, which are set up.
    Request(Request),
}

impl HookFailure {
    ghost use Rattle.schedule_text.specs.Commands.{failing_answer};

    /// What a hook answers that a step asks, where this one fails and all others answer Ok; Ok where the step asks none.
    pub fn answer(self, asked: Option<HookKind>) -> Result<(), u16>
        ensures { result ≡ failing_answer self asked }
    {
        match asked {
            Some(hook) if hook == self.hook => Err(self.code),
            _ => Ok(()),
        }
    }
}

/// What a line asks for, where there are so many tasks, or where no configuration was given yet; or the first fault of the
/// line.
#[tactic(auto, unfolding(crate::specs::Parsing::parsed))]
pub fn parse(line: &[u8], tasks: Option<u8>) -> Result<Line, Fault>
    ensures { result ≡ parsed line.now tasks }
{
    if is_skipped(line) {
        return Ok(Line::Skipped);
    }
    match tasks {
        None => config_line(line),
        Some(tasks) => command_line(line, tasks),
    }
}

/// Whether a line is empty or a comment.
fn is_skipped(line: &[u8]) -> bool
    ensures { result ≡ is_skipped line.now }
{
    match line {
        [] => true,
        [first, ..] => *first == b'#',
    }
}

/// The first line that isn't skipped.
#[tactic(auto, unfolding(crate::specs::Parsing::config_line))]
fn config_line(line: &[u8]) -> Result<Line, Fault>
    ensures { result ≡ config_line line.now }
{
    if !is_word(first_word(line), "config") {
        return Err(Fault::ConfigExpected);
    }
    if word_count(line) != 6 {
        return Err(Fault::WrongNumberOfWords);
    }
    let config = config_of(after_word(line))?;
    Ok(Line::Config(config))
}

/// The five numbers of a configuration.
#[tactic(auto, unfolding(crate::specs::Parsing::config_of))]
fn config_of(rest: &[u8]) -> Result<Config, Fault>
    ensures { result ≡ config_of rest.now }
{
    let tasks = byte_at(rest)?;
    let rest = after_word(rest);
    let processors = byte_at(rest)?;
    let rest = after_word(rest);
    let mounts = byte_at(rest)?;
    let rest = after_word(rest);
    let nodes = byte_at(rest)?;
    let rest = after_word(rest);
    let capacity = number_at(rest)?;
    Ok(Config {
        tasks,
        processors,
        mounts,
        nodes,
        capacity,
    })
}

/// A line after the configuration.
#[tactic(auto, unfolding(crate::specs::Parsing::command_line))]
fn command_line(line: &[u8], tasks: u8) -> Result<Line, Fault>
    ensures { result ≡ command_line line.now tasks }
{
    let (first, rest) = split_word(line);
    if is_word(first, "config") {
        Err(Fault::ConfigTwice)
    } else if is_word(first, "words") {
        alone(word_count(line), Request::Words)
    } else if is_word(first, "tree") {
        alone(word_count(line), Request::Tree)
    } else if is_word(first, "model") {
        alone(word_count(line), Request::Model)
    } else if !is_digits(first) {
        Err(Fault::UnknownCommand)
    } else if first.len() == line.len() {
        Err(Fault::WrongNumberOfWords)
    } else {
        task_line(first, rest, tasks)
    }
}

/// A request that stands alone on its line.
fn alone(words: usize, request: Request) -> Result<Line, Fault>
    ensures { result ≡ alone words request }
{
    if words == 1 {
        Ok(Line::Request(request))
    } else {
        Err(Fault::WrongNumberOfWords)
    }
}

/// A line on a task: its first word, which is digits, and what follows it.
#[tactic(auto, unfolding(crate::specs::Parsing::task_line))]
fn task_line(task: &[u8], rest: &[u8], tasks: u8) -> Result<Line, Fault>
    ensures { (line : List ℕ) → task.now ≡ first_word line → rest.now ≡ after_word line → word_count line ≡ 1 + word_count rest.now →
        result ≡ task_line line tasks }
{
    let (verb, arguments) = split_word(rest);
    let words = 1 + words_of(rest, verb, arguments);
    let verb = Verb::of(verb).ok_or(Fault::UnknownCommand)?;
    if !verb.takes(words) {
        return Err(Fault::WrongNumberOfWords);
    }
    let task = task_of(task, tasks).ok_or(Fault::NoSuchTask)?;
    let command = arguments_of(verb, arguments, words)?;
    Ok(Line::Request(Request::Task { task, command }))
}

/// How many words a text has, of which the first one is known, and what follows it: mostly that is little, or nothing.
fn words_of(text: &[u8], first: &[u8], after: &[u8]) -> usize
    requires first { first.now ≡ first_word text.now }
    requires after { after.now ≡ after_word text.now }
    ensures count { result ≡ word_count text.now }
    ensures few { result ≤ length text.now + 1 }
{
    if first.len() == text.len() {
        1
    } else {
        1 + word_count(after)
    }
}

/// The task that a word of digits names. Digits that are no number name no task.
#[tactic(auto, unfolding(crate::specs::Parsing::task_of))]
fn task_of(word: &[u8], tasks: u8) -> Option<u8>
    ensures { result ≡ task_of word.now tasks }
{
    let task = byte_of(number_of(word)?);
    if task < tasks { Some(task) } else { None }
}

/// Returns what a verb asks for on a line of so many words, from its arguments.
#[tactic(auto, unfolding(crate::specs::Parsing::arguments_of))]
fn arguments_of(verb: Verb, rest: &[u8], words: usize) -> Result<TaskCommand, Fault>
    ensures { result ≡ arguments_of verb rest.now words }
{
    let wait = verb.waits();
    match verb {
        Verb::Want | Verb::TryWant => with_two(rest, |mount, cpu| Op::Want { mount, cpu, wait }),
        Verb::WantWrite => with_two(rest, |mount, cpu| Op::WantWrite { mount, cpu }),
        Verb::Drop => with_two(rest, |mount, cpu| Op::DropMount { mount, cpu }),
        Verb::DropWrite => with_two(rest, |mount, cpu| Op::DropWrite { mount, cpu }),
        Verb::Start | Verb::TryStart => with_two(rest, |level, cpu| Op::Start { level, cpu, wait }),
        Verb::End => with_two(rest, |level, cpu| Op::End { level, cpu }),
        Verb::Callback => with_one(byte_at(rest), |level| Op::Callback { level }),
        Verb::Change | Verb::TryChange => change_of(rest, wait),
        Verb::Remount => with_one(read_only_at(rest), |read_only| Op::RemountSb { read_only }),
        Verb::Freeze => with_one(holder_given(rest, words), |holder| Op::Freeze { holder }),
        Verb::Thaw => with_one(holder_given(rest, words), |holder| Op::Thaw { holder }),
        Verb::Create => create_of(rest),
        Verb::Remove => with_one(byte_at(rest), |file| Op::Remove { file }),
        Verb::Grow => grow_of(rest),
        Verb::Move => with_two(rest, |file, dir| Op::MoveTo { file, dir }),
        Verb::Fault => with_one(byte_at(rest), |file| Op::Fault { file }),
        Verb::Flush => with_one(byte_at(rest), |file| Op::Flush { file }),
        Verb::Open => with_one(byte_at(rest), |file| Op::Open { file }),
        Verb::Close | Verb::TryClose => with_two(rest, |file, cpu| Op::Close { file, cpu, wait }),
        Verb::Snapshot | Verb::TrySnapshot => Ok(TaskCommand::Begin(Op::Snapshot { wait })),
        Verb::Step if words == 2 => Ok(TaskCommand::Step { hook: Ok(()) }),
        Verb::Step => step_of(rest),
        Verb::Run if words == 2 => Ok(TaskCommand::Run { failure: None }),
        Verb::Run => run_of(rest),
    }
}

/// Returns the beginning of the operation that one argument makes, or the argument's fault.
fn with_one<A, F: FnOnce(A) -> Op + Drop>(
    argument: Result<A, Fault>,
    op: F,
) -> Result<TaskCommand, Fault>
    requires { F.IsAlwaysCallable op }
    ensures begins { IfOk argument (λ x. (made : OpType) × F.post op x made × (result ≡ Ok (Begin made))) }
    ensures fault { IfErr argument (λ fault. result ≡ Err fault) }
{
    match argument {
        Ok(argument) => Ok(TaskCommand::Begin(op(argument))),
        Err(fault) => Err(fault),
    }
}

/// Returns the beginning of the operation that the first two numbers make, or the fault of the first that has one.
#[tactic(auto, unfolding(crate::specs::Parsing::two_at))]
fn with_two<F: FnOnce(u8, u8) -> Op + Drop>(rest: &[u8], op: F) -> Result<TaskCommand, Fault>
    requires { F.IsAlwaysCallable op }
    ensures begins { IfOk (two_at rest.now) (λ two. (made : OpType) × F.post op two.0 two.1 made × (result ≡ Ok (Begin made))) }
    ensures fault { IfErr (two_at rest.now) (λ fault. result ≡ Err fault) }
{
    let first = byte_at(rest)?;
    let second = byte_at(after_word(rest))?;
    Ok(TaskCommand::Begin(op(first, second)))
}

#[tactic(auto, unfolding(crate::specs::Parsing::change_of))]
fn change_of(rest: &[u8], wait: bool) -> Result<TaskCommand, Fault>
    ensures { result ≡ change_of rest.now wait }
{
    let mount = byte_at(rest)?;
    let read_only = read_only_at(after_word(rest))?;
    Ok(TaskCommand::Begin(Op::ChangeMount {
        mount,
        read_only,
        wait,
    }))
}

#[tactic(auto, unfolding(crate::specs::Parsing::create_of))]
fn create_of(rest: &[u8]) -> Result<TaskCommand, Fault>
    ensures { result ≡ create_of rest.now }
{
    let dir = byte_at(rest)?;
    let kind = kind_at(after_word(rest))?;
    Ok(TaskCommand::Begin(Op::Create { dir, kind }))
}

#[tactic(auto, unfolding(crate::specs::Parsing::grow_of))]
fn grow_of(rest: &[u8]) -> Result<TaskCommand, Fault>
    ensures { result ≡ grow_of rest.now }
{
    let file = byte_at(rest)?;
    let blocks = number_at(after_word(rest))?;
    Ok(TaskCommand::Begin(Op::Grow { file, blocks }))
}

#[tactic(auto, unfolding(crate::specs::Parsing::step_of))]
fn step_of(rest: &[u8]) -> Result<TaskCommand, Fault>
    ensures { result ≡ step_of rest.now }
{
    let code = code_at(rest)?;
    Ok(TaskCommand::Step { hook: Err(code) })
}

#[tactic(auto, unfolding(crate::specs::Parsing::run_of))]
fn run_of(rest: &[u8]) -> Result<TaskCommand, Fault>
    ensures { result ≡ run_of rest.now }
{
    let hook = hook_at(rest)?;
    let code = code_at(after_word(rest))?;
    let failure = Some(HookFailure { hook, code });
    Ok(TaskCommand::Run { failure })
}

/// The number that comes first.
#[tactic(auto, unfolding(crate::specs::Parsing::number_at))]
fn number_at(text: &[u8]) -> Result<u32, Fault>
    ensures { result ≡ number_at text.now }
{
    number_of(first_word(text)).ok_or(Fault::BadNumber)
}

/// The number that comes first, as it is handed to a call that takes a `u8`.
#[tactic(auto, unfolding(crate::specs::Parsing::byte_at))]
fn byte_at(text: &[u8]) -> Result<u8, Fault>
    ensures { result ≡ byte_at text.now }
{
    let number = number_at(text)?;
    Ok(byte_of(number))
}

/// The code of a hook that comes first.
#[tactic(auto, unfolding(crate::specs::Parsing::code_at))]
fn code_at(text: &[u8]) -> Result<u16, Fault>
    ensures { result ≡ code_at text.now }
{
    code_of(first_word(text)).ok_or(Fault::BadNumber)
}

/// The hook that comes first.
#[tactic(auto, unfolding(crate::specs::Parsing::hook_at))]
fn hook_at(text: &[u8]) -> Result<HookKind, Fault>
    ensures { result ≡ hook_at text.now }
{
    hook_named(first_word(text)).ok_or(Fault::BadWord)
}

/// The holder that comes first.
#[tactic(auto, unfolding(crate::specs::Parsing::holder_at))]
fn holder_at(text: &[u8]) -> Result<Holder, Fault>
    ensures { result ≡ holder_at text.now }
{
    holder_named(first_word(text)).ok_or(Fault::BadWord)
}

/// The holder on a line of so many words, which may leave it out: then it is user space.
#[tactic(auto, unfolding(crate::specs::Parsing::holder_given))]
fn holder_given(rest: &[u8], words: usize) -> Result<Holder, Fault>
    ensures { result ≡ holder_given rest.now words }
{
    if words == 2 {
        Ok(Holder::User)
    } else {
        holder_at(rest)
    }
}

/// The kind of node that comes first.
#[tactic(auto, unfolding(crate::specs::Parsing::kind_at))]
fn kind_at(text: &[u8]) -> Result<Kind, Fault>
    ensures { result ≡ kind_at text.now }
{
    kind_named(first_word(text)).ok_or(Fault::BadWord)
}

/// `ro` or `rw`, which comes first.
#[tactic(auto, unfolding(crate::specs::Parsing::read_only_at))]
fn read_only_at(text: &[u8]) -> Result<bool, Fault>
    ensures { result ≡ read_only_at text.now }
{
    read_only_of(first_word(text)).ok_or(Fault::BadWord)
}

/// Whether a word asks for read-only, `ro`, or for writable, `rw`.
#[tactic(auto, unfolding(crate::specs::Parsing::read_only_of))]
fn read_only_of(word: &[u8]) -> Option<bool>
    ensures { result ≡ read_only_of word.now }
{
    if is_word(word, "ro") {
        Some(true)
    } else if is_word(word, "rw") {
        Some(false)
    } else {
        None
    }
}

/// The hook that a word names.
#[tactic(auto, unfolding(crate::specs::Commands::hook_named))]
pub fn hook_named(word: &[u8]) -> Option<HookKind>
    ensures { result ≡ hook_named word.now }
{
    if is_word(word, "sync") {
        Some(HookKind::Sync)
    } else if is_word(word, "freeze") {
        Some(HookKind::FreezeFs)
    } else if is_word(word, "unfreeze") {
        Some(HookKind::UnfreezeFs)
    } else if is_word(word, "reconfigure") {
        Some(HookKind::Reconfigure)
    } else if is_word(word, "wait") {
        Some(HookKind::KeepWaiting)
    } else {
        None
    }
}

/// The holder that a word names: the kernel or user space.
#[tactic(auto, unfolding(crate::specs::Commands::holder_named))]
pub fn holder_named(word: &[u8]) -> Option<Holder>
    ensures { result ≡ holder_named word.now }
{
    if is_word(word, "kernel") {
        Some(Holder::Kernel)
    } else if is_word(word, "user") {
        Some(Holder::User)
    } else {
        None
    }
}

/// The kind of node that a word names: a file or a directory.
#[tactic(auto, unfolding(crate::specs::Commands::kind_named))]
pub fn kind_named(word: &[u8]) -> Option<Kind>
    ensures { result ≡ kind_named word.now }
{
    if is_word(word, "file") {
        Some(Kind::File)
    } else if is_word(word, "dir") {
        Some(Kind::Dir)
    } else {
        None
    }
}
