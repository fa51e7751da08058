//! The text of a condition.

ghost use Rattle.std.specs.Prelude.{◌≡◌, ◌≤◌, ◌<◌, IfOk, IfErr, Ok, slice_index};
ghost use Rattle.race_conditions.specs.Conditions.{formula_of, Not};
ghost use Rattle.race_conditions.specs.Named.{AllNamed, IsNamed};
ghost use Rattle.race_conditions.specs.Pieces.{piece_at};
ghost use Rattle.schedule_lines.specs.Numbers.{code_of};
ghost use Rattle.race_conditions.specs.Parsing.{access_at, after_piece, answer_at, behind_task, both, call_fact_at, condition_at, condition_in, coded, fact_at, held_at, held_file_at, held_level_at, held_mount_at, holder_at, holder_fact_at, IsFaultOf, is_due, mount_fact_at, node_fact, node_fact_at, number_at, numbered_call_at, part_of, reason_of, refusal_at, sign_text, stage_fact_at, superblock_fact_at, task_fact_at};

use crate::faults::{ConditionFault, Expected, Unexpected};
use crate::pieces::{end_of, is_next, piece_at, unexpected};
use crate::word_facts::word_fact_at;
use crate::{CallAnswer, Condition, Fact, NodeFact};
use access_model::{Gate, GateError, Holder};
use gate_world::Config;
use schedule_lines::numbers::{code_of, is_digits, number_of};
use schedule_lines::words::is_word;
use std::alloc::{AllocError, Global};

/// How deep the parts of a condition may be nested.
const DEPTH: u16 = 1000;

/// The rank of a whole condition, and of what is in parentheses.
const ANY: Rank = Rank::Joined(Sign::Or);

/// What a condition may name: what the configuration has, and so many calls of each task.
#[derive(Drop)]
pub struct Names {
    pub config: Config,
    pub calls: Vec<u8>,
}

/// What stands between two conditions.
#[derive(Clone, Copy)]
pub enum Sign {
    Or,
    And,
}

/// What a part of a condition may be.
#[derive(Clone, Copy)]
pub enum Rank {
    /// Conditions with this sign between them.
    Joined(Sign),
    /// A fact, or what is in parentheses or behind `!`.
    One,
}

impl Sign {
    /// How it is written.
    fn text(self) -> &'static str
        ensures { result.now ≡ sign_text self }
    {
        match self {
            Sign::Or => "|",
            Sign::And => "&",
        }
    }

    /// The rank of the conditions that it stands between.
    fn part(self) -> Rank
        ensures { result ≡ part_of self }
    {
        match self {
            Sign::Or => Rank::Joined(Sign::And),
            Sign::And => Rank::One,
        }
    }

    /// The two conditions with it between them.
    fn join(self, alloc: Global, one: Condition, other: Condition) -> Result<Condition, AllocError>
        ensures { IfOk result (λ condition. formula_of condition ≡ both self (formula_of one) (formula_of other)) }
    {
        let one = Box::new(alloc, one)?;
        let other = Box::new(alloc, other)?;
        Ok(match self {
            Sign::Or => Condition::Or(one, other),
            Sign::And => Condition::And(one, other),
        })
    }
}

/// The reasons of refusals that have no code.
const REASONS: [GateError; 11] = [
    GateError::NoEntry,
    GateError::Again,
    GateError::NoMemory,
    GateError::Busy,
    GateError::NotDir,
    GateError::IsDir,
    GateError::Invalid,
    GateError::TooMany,
    GateError::NoSpace,
    GateError::ReadOnly,
    GateError::Order,
];

/// Reads the text of a condition on the states of a race that has these names.
///
/// # Errors
///
/// What is expected first where the text says something else, or that memory was refused.
#[tactic(auto, unfolding(crate::specs::Parsing::condition_in))]
pub fn parse(alloc: Global, names: &Names, text: &[u8]) -> Result<Condition, ConditionFault>
    requires { names.now.config.nodes ≤ 64 }
    ensures read { IfOk result (λ condition. condition_in text.now names.now.config names.now.calls.items ≡ Ok (formula_of condition)) }
    ensures named { IfOk result (λ condition. AllNamed names.now.config (formula_of condition)) }
    ensures fault { IfErr result (IsFaultOf (condition_in text.now names.now.config names.now.calls.items)) }
{
    let (condition, at) = condition_at(alloc, names, text, DEPTH, ANY, 0)?;
    if piece_at(text, at).is_empty() {
        Ok(condition)
    } else {
        Err(ConditionFault::Unexpected(unexpected(text, at, Expected::End)))
    }
}

/// Reads a condition of this rank whose parts are nested less deep than so.
fn condition_at(
    alloc: Global,
    names: &Names,
    text: &[u8],
    depth: u16,
    rank: Rank,
    at: usize,
) -> Result<(Condition, usize), ConditionFault>
    requires { names.now.config.nodes ≤ 64 }
    ensures read { IfOk result (λ read. condition_at text.now names.now.config names.now.calls.items depth rank at ≡ Ok (formula_of read.0, read.1)) }
    ensures named { IfOk result (λ read. AllNamed names.now.config (formula_of read.0)) }
    ensures fault { IfErr result (IsFaultOf (condition_at text.now names.now.config names.now.calls.items depth rank at)) }
{
    if depth == 0 {
        return Err(ConditionFault::Unexpected(unexpected(text, at, Expected::Shallower)));
    }
    let depth = depth - 1;
    match rank {
        Rank::Joined(sign) => {
            let (one, at) = condition_at(alloc, names, text, depth, sign.part(), at)?;
            if !is_next(text, at, sign.text()) {
                return Ok((one, at));
            }
            let (other, at) = condition_at(alloc, names, text, depth, rank, end_of(text, at))?;
            Ok((sign.join(alloc, one, other)?, at))
        }
        Rank::One if is_next(text, at, "!") => {
            let behind = end_of(text, at);
            let (condition, at) = condition_at(alloc, names, text, depth, Rank::One, behind)?;
            Ok((not_of(alloc, condition)?, at))
        }
        Rank::One if is_next(text, at, "(") => {
            let behind = end_of(text, at);
            let (condition, at) = condition_at(alloc, names, text, depth, ANY, behind)?;
            let at = after_piece(text, ")", at, Expected::Close)?;
            Ok((condition, at))
        }
        Rank::One => {
            let (fact, at) = fact_at(names, text, at)?;
            Ok((Condition::Is(fact), at))
        }
    }
}

fn not_of(alloc: Global, condition: Condition) -> Result<Condition, AllocError>
    ensures { IfOk result (λ denied. formula_of denied ≡ Not (formula_of condition)) }
{
    let condition = Box::new(alloc, condition)?;
    Ok(Condition::Not(condition))
}

/// Reads a fact.
#[tactic(auto, unfolding(crate::specs::Parsing::fact_at))]
fn fact_at(names: &Names, text: &[u8], at: usize) -> Result<(Fact, usize), Unexpected>
    requires { names.now.config.nodes ≤ 64 }
    ensures read { result ≡ fact_at text.now names.now.config names.now.calls.items at }
    ensures named { IfOk result (λ read. IsNamed names.now.config read.0) }
{
    if is_digits(piece_at(text, at)) {
        task_fact_at(names, text, at)
    } else if is_next(text, at, "sb") {
        superblock_fact_at(names, text, end_of(text, at))
    } else if is_next(text, at, "mount") {
        mount_fact_at(names, text, end_of(text, at))
    } else if is_next(text, at, "stage") {
        stage_fact_at(names, text, end_of(text, at))
    } else if is_next(text, at, "holder") {
        holder_fact_at(names, text, end_of(text, at))
    } else if is_next(text, at, "node") {
        node_fact(names, text, end_of(text, at))
    } else {
        word_fact_at(names.config, text, at)
    }
}

/// Reads a fact of a task, from its number on.
#[tactic(auto, unfolding(crate::specs::Parsing::task_fact_at))]
fn task_fact_at(names: &Names, text: &[u8], at: usize) -> Result<(Fact, usize), Unexpected>
    ensures read { result ≡ task_fact_at text.now names.now.config names.now.calls.items at }
    ensures named { IfOk result (λ read. IsNamed names.now.config read.0) }
{
    let (task, at) = number_at(text, 0, names.config.tasks, at, Expected::Task)?;
    behind_task(names, text, task, at)
}

/// Reads what stands behind the number of a task.
#[tactic(auto, unfolding(crate::specs::Parsing::behind_task))]
fn behind_task(names: &Names, text: &[u8], task: u8, at: usize) -> Result<(Fact, usize), Unexpected>
    requires { task < names.now.config.tasks }
    ensures read { result ≡ behind_task text.now names.now.config names.now.calls.items task at }
    ensures named { IfOk result (λ read. IsNamed names.now.config read.0) }
{
    if is_next(text, at, ".") {
        numbered_call_at(names, text, task, end_of(text, at))
    } else if is_next(text, at, "holds") {
        held_at(names, text, task, end_of(text, at))
    } else {
        Err(unexpected(text, at, Expected::DotOrHolds))
    }
}

/// Reads a fact of a task's call, from the call's number on.
#[tactic(auto, unfolding(crate::specs::Parsing::numbered_call_at))]
fn numbered_call_at(
    names: &Names,
    text: &[u8],
    task: u8,
    at: usize,
) -> Result<(Fact, usize), Unexpected>
    requires { task < names.now.config.tasks }
    ensures read { result ≡ numbered_call_at text.now names.now.config names.now.calls.items task at }
    ensures named { IfOk result (λ read. IsNamed names.now.config read.0) }
{
    let (call, at) = number_at(text, 0, calls_of(names, task), at, Expected::Call)?;
    call_fact_at(names, text, task, call, at)
}

/// How many calls a task has.
fn calls_of(names: &Names, task: u8) -> u8
    ensures { result ≡ slice_index names.now.calls.items task }
{
    names.calls.get(task as usize).copied().unwrap_or(0)
}

/// Whether a call is said to be due: by that word, or by `waits`, which is an older word for the same.
fn is_due(text: &[u8], at: usize) -> bool
    ensures { result ≡ is_due text.now at }
{
    is_next(text, at, "due") || is_next(text, at, "waits")
}

/// Reads what stands behind the number of a call.
#[tactic(auto, unfolding(crate::specs::Parsing::call_fact_at))]
fn call_fact_at(
    names: &Names,
    text: &[u8],
    task: u8,
    call: u8,
    at: usize,
) -> Result<(Fact, usize), Unexpected>
    requires { task < names.now.config.tasks }
    ensures read { result ≡ call_fact_at text.now task call at }
    ensures named { IfOk result (λ read. IsNamed names.now.config read.0) }
{
    let _ = names;
    if is_due(text, at) {
        Ok((Fact::Due { task, call }, end_of(text, at)))
    } else if is_next(text, at, "=") {
        let (answer, at) = answer_at(text, end_of(text, at))?;
        Ok((Fact::Answered { task, call, answer }, at))
    } else {
        Err(unexpected(text, at, Expected::EqualsOrDue))
    }
}

/// Reads what a call has answered.
#[tactic(auto, unfolding(crate::specs::Parsing::answer_at))]
fn answer_at(text: &[u8], at: usize) -> Result<(CallAnswer, usize), Unexpected>
    ensures { result ≡ answer_at text.now at }
{
    if is_next(text, at, "ok") {
        Ok((CallAnswer::Done, end_of(text, at)))
    } else if is_next(text, at, "skipped") {
        Ok((CallAnswer::Skipped, end_of(text, at)))
    } else if is_next(text, at, "refused") {
        refusal_at(text, end_of(text, at))
    } else {
        Err(unexpected(text, at, Expected::Answer))
    }
}

/// Reads the reason of a refusal, where there is one.
#[tactic(auto, unfolding(crate::specs::Parsing::refusal_at))]
fn refusal_at(text: &[u8], at: usize) -> Result<(CallAnswer, usize), Unexpected>
    ensures { result ≡ refusal_at text.now at }
{
    if is_next(text, at, "Hook") {
        return hook_at(text, end_of(text, at));
    }
    match reason_of(piece_at(text, at)) {
        Some(reason) => Ok((CallAnswer::RefusedFor(reason), end_of(text, at))),
        None => Ok((CallAnswer::Refused, at)),
    }
}

/// Reads the code of a hook.
fn hook_at(text: &[u8], at: usize) -> Result<(CallAnswer, usize), Unexpected>
    ensures { result ≡ coded text.now at (code_of (piece_at text.now at)) }
{
    match code_of(piece_at(text, at)) {
        Some(code) => Ok((
            CallAnswer::RefusedFor(GateError::Hook(code)),
            end_of(text, at),
        )),
        None => Err(unexpected(text, at, Expected::Code)),
    }
}

/// The reason of a name.
fn reason_of(word: &[u8]) -> Option<GateError>
    ensures { result ≡ reason_of word.now }
{
    REASONS
        .iter()
        .find(|reason| is_word(word, reason.name()))
        .copied()
}

/// Reads what a task holds, behind `holds`.
#[tactic(auto, unfolding(crate::specs::Parsing::held_at))]
fn held_at(names: &Names, text: &[u8], task: u8, at: usize) -> Result<(Fact, usize), Unexpected>
    requires { task < names.now.config.tasks }
    ensures read { result ≡ held_at text.now names.now.config task at }
    ensures named { IfOk result (λ read. IsNamed names.now.config read.0) }
{
    if is_next(text, at, "mount") {
        held_mount_at(names, text, task, end_of(text, at))
    } else if is_next(text, at, "level") {
        held_level_at(names, text, task, end_of(text, at))
    } else if is_next(text, at, "file") {
        held_file_at(names, text, task, end_of(text, at))
    } else {
        Err(unexpected(text, at, Expected::Held))
    }
}

#[tactic(auto, unfolding(crate::specs::Parsing::held_mount_at))]
fn held_mount_at(
    names: &Names,
    text: &[u8],
    task: u8,
    at: usize,
) -> Result<(Fact, usize), Unexpected>
    requires { task < names.now.config.tasks }
    ensures read { result ≡ held_mount_at text.now names.now.config task at }
    ensures named { IfOk result (λ read. IsNamed names.now.config read.0) }
{
    let (mount, at) = number_at(text, 0, names.config.mounts, at, Expected::Mount)?;
    let gate = Gate::Mount(mount);
    Ok((Fact::Holds { task, gate }, at))
}

#[tactic(auto, unfolding(crate::specs::Parsing::held_level_at))]
fn held_level_at(
    names: &Names,
    text: &[u8],
    task: u8,
    at: usize,
) -> Result<(Fact, usize), Unexpected>
    requires { task < names.now.config.tasks }
    ensures read { result ≡ held_level_at text.now names.now.config task at }
    ensures named { IfOk result (λ read. IsNamed names.now.config read.0) }
{
    let _ = names;
    let (level, at) = number_at(text, 1, 4, at, Expected::Level)?;
    let gate = Gate::Level(level);
    Ok((Fact::Holds { task, gate }, at))
}

#[tactic(auto, unfolding(crate::specs::Parsing::held_file_at))]
fn held_file_at(
    names: &Names,
    text: &[u8],
    task: u8,
    at: usize,
) -> Result<(Fact, usize), Unexpected>
    requires { task < names.now.config.tasks }
    ensures read { result ≡ held_file_at text.now names.now.config task at }
    ensures named { IfOk result (λ read. IsNamed names.now.config read.0) }
{
    let (file, at) = number_at(text, 0, names.config.nodes, at, Expected::Node)?;
    Ok((Fact::HasOpen { task, file }, at))
}

#[tactic(auto, unfolding(crate::specs::Parsing::superblock_fact_at))]
fn superblock_fact_at(names: &Names, text: &[u8], at: usize) -> Result<(Fact, usize), Unexpected>
    ensures read { result ≡ superblock_fact_at text.now at }
    ensures named { IfOk result (λ read. IsNamed names.now.config read.0) }
{
    let _ = names;
    let at = after_piece(text, "=", at, Expected::Equals)?;
    let (read_only, at) = access_at(text, at)?;
    Ok((Fact::Superblock { read_only }, at))
}

#[tactic(auto, unfolding(crate::specs::Parsing::mount_fact_at))]
fn mount_fact_at(names: &Names, text: &[u8], at: usize) -> Result<(Fact, usize), Unexpected>
    ensures read { result ≡ mount_fact_at text.now names.now.config at }
    ensures named { IfOk result (λ read. IsNamed names.now.config read.0) }
{
    let (mount, at) = number_at(text, 0, names.config.mounts, at, Expected::Mount)?;
    let at = after_piece(text, "=", at, Expected::Equals)?;
    let (read_only, at) = access_at(text, at)?;
    Ok((Fact::Mount { mount, read_only }, at))
}

#[tactic(auto, unfolding(crate::specs::Parsing::stage_fact_at))]
fn stage_fact_at(names: &Names, text: &[u8], at: usize) -> Result<(Fact, usize), Unexpected>
    ensures read { result ≡ stage_fact_at text.now at }
    ensures named { IfOk result (λ read. IsNamed names.now.config read.0) }
{
    let _ = names;
    let at = after_piece(text, "=", at, Expected::Equals)?;
    let (stage, at) = number_at(text, 0, 5, at, Expected::Stage)?;
    Ok((Fact::Stage(stage), at))
}

#[tactic(auto, unfolding(crate::specs::Parsing::holder_fact_at))]
fn holder_fact_at(names: &Names, text: &[u8], at: usize) -> Result<(Fact, usize), Unexpected>
    ensures read { result ≡ holder_fact_at text.now at }
    ensures named { IfOk result (λ read. IsNamed names.now.config read.0) }
{
    let _ = names;
    let (holder, at) = holder_at(text, at)?;
    Ok((Fact::FrozenBy(holder), at))
}

#[tactic(auto, unfolding(crate::specs::Parsing::node_fact))]
fn node_fact(names: &Names, text: &[u8], at: usize) -> Result<(Fact, usize), Unexpected>
    requires { names.now.config.nodes ≤ 64 }
    ensures read { result ≡ node_fact text.now names.now.config at }
    ensures named { IfOk result (λ read. IsNamed names.now.config read.0) }
{
    let (node, at) = number_at(text, 0, names.config.nodes, at, Expected::Node)?;
    let (is, at) = node_fact_at(text, at)?;
    Ok((Fact::Node { node, is }, at))
}

/// Reads a number that is at least the one and below the other.
#[tactic(auto, unfolding(crate::specs::Parsing::number_at))]
pub(crate) fn number_at(
    text: &[u8],
    least: u8,
    limit: u8,
    at: usize,
    expected: Expected,
) -> Result<(u8, usize), Unexpected>
    ensures read { result ≡ number_at text.now least limit at expected }
    ensures within { IfOk result (λ read. (least ≤ read.0) × (read.0 < limit)) }
{
    match number_of(piece_at(text, at)) {
        Some(number) if number < u32::from(least) => Err(unexpected(text, at, expected)),
        Some(number) if number < u32::from(limit) => Ok((number as u8, end_of(text, at))),
        _ => Err(unexpected(text, at, expected)),
    }
}

/// Reads this piece.
#[tactic(auto, unfolding(crate::specs::Parsing::after_piece))]
pub(crate) fn after_piece(
    text: &[u8],
    piece: &str,
    at: usize,
    expected: Expected,
) -> Result<usize, Unexpected>
    ensures { result ≡ after_piece text.now piece.now at expected }
{
    if is_next(text, at, piece) {
        Ok(end_of(text, at))
    } else {
        Err(unexpected(text, at, expected))
    }
}

/// Reads `ro` or `rw`.
#[tactic(auto, unfolding(crate::specs::Parsing::access_at))]
fn access_at(text: &[u8], at: usize) -> Result<(bool, usize), Unexpected>
    ensures { result ≡ access_at text.now at }
{
    if is_next(text, at, "ro") {
        Ok((true, end_of(text, at)))
    } else if is_next(text, at, "rw") {
        Ok((false, end_of(text, at)))
    } else {
        Err(unexpected(text, at, Expected::Access))
    }
}

/// Reads who holds a freeze.
#[tactic(auto, unfolding(crate::specs::Parsing::holder_at))]
fn holder_at(text: &[u8], at: usize) -> Result<(Holder, usize), Unexpected>
    ensures { result ≡ holder_at text.now at }
{
    if is_next(text, at, "kernel") {
        Ok((Holder::Kernel, end_of(text, at)))
    } else if is_next(text, at, "user") {
        Ok((Holder::User, end_of(text, at)))
    } else {
        Err(unexpected(text, at, Expected::Holder))
    }
}

/// Reads what a node is.
#[tactic(auto, unfolding(crate::specs::Parsing::node_fact_at))]
fn node_fact_at(text: &[u8], at: usize) -> Result<(NodeFact, usize), Unexpected>
    ensures { result ≡ node_fact_at text.now at }
{
    if is_next(text, at, "free") {
        Ok((NodeFact::Free, end_of(text, at)))
    } else if is_next(text, at, "file") {
        Ok((NodeFact::File, end_of(text, at)))
    } else if is_next(text, at, "dir") {
        Ok((NodeFact::Dir, end_of(text, at)))
    } else if is_next(text, at, "dirty") {
        Ok((NodeFact::Dirty, end_of(text, at)))
    } else if is_next(text, at, "removed") {
        Ok((NodeFact::Removed, end_of(text, at)))
    } else {
        Err(unexpected(text, at, Expected::NodeFact))
    }
}
