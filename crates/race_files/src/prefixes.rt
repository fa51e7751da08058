//! What stands between the task of a call's line and its command: `after T.K`, `if ok` or
//! `if refused`, and `retry`.

ghost use Rattle.std.specs.Prelude.{◌≡◌, ◌≤◌, ◌+◌, drop, length};
ghost use Rattle.race_files.specs.Prefixes.{after_at, behind_after, behind_branch, call_named, dot_in, branch_named, command_at, has_prefix, prefixed_call, name_expected, no_prefix, retries_at, when_at, without_prefix};
ghost use Rattle.schedule_lines.specs.Printed.{Prints};

use crate::faults::RaceFault;
use gate_world::Op;
use races::{Call, CallName, When};
use schedule_lines::Output;
use schedule_lines::numbers::{byte_of, is_digits, number_of};
use schedule_lines::words::{after_word, first_word};

const DOT: u8 = b'.';

/// When a call is made, whether it is made again while it is refused, and after which it comes.
#[derive(Clone, Copy)]
pub struct Prefix {
    pub when: When,
    pub retries: bool,
    pub after: Option<CallName>,
}

impl Prefix {
    /// Those of a line that has none.
    pub fn none() -> Prefix
        ensures { result ≡ no_prefix }
    {
        Prefix {
            when: When::Always,
            retries: false,
            after: None,
        }
    }

    /// The call of an operation with this prefix, of which no hook fails.
    pub fn call(self, op: Op) -> Call
        ensures { result ≡ prefixed_call self op }
    {
        Call {
            op,
            failure: None,
            when: self.when,
            retries: self.retries,
            after: self.after,
        }
    }
}

/// Whether a line on a task has a prefix.
#[tactic(auto, unfolding(crate::specs::Prefixes::has_prefix))]
pub fn has_prefix(line: &[u8]) -> bool
    ensures { result ≡ has_prefix line.now }
{
    let second = first_word(after_word(line));
    is_digits(first_word(line))
        && (second == b"after".as_slice()
            || second == b"if".as_slice()
            || second == b"retry".as_slice())
}

/// The call that a call comes after, by what stands behind its task.
///
/// # Errors
///
/// `NameExpected` where `after` stands there, and no `T.K` behind it.
#[tactic(auto, unfolding(crate::specs::Prefixes::after_at))]
pub fn after_at(rest: &[u8]) -> Result<Option<CallName>, RaceFault>
    ensures { result ≡ after_at rest.now }
{
    if first_word(rest) == b"after".as_slice() {
        name_expected(call_named(first_word(after_word(rest))))
    } else {
        Ok(None)
    }
}

/// That a call is named.
fn name_expected(name: Option<CallName>) -> Result<Option<CallName>, RaceFault>
    ensures { result ≡ name_expected name }
{
    match name {
        Some(name) => Ok(Some(name)),
        None => Err(RaceFault::NameExpected),
    }
}

/// The call that a word names, as `T.K`: call K of task T, both from 0. None where it names none.
#[tactic(auto, unfolding(crate::specs::Prefixes::call_named))]
fn call_named(word: &[u8]) -> Option<CallName>
    ensures { result ≡ call_named word.now }
{
    let dot = dot_in(word);
    let task = number_of(&word[..dot])?;
    let turn = number_of(behind(word, dot))?;
    Some(CallName {
        task: byte_of(task),
        turn: byte_of(turn),
    })
}

/// Where the first dot of a word is, or its end.
#[tactic(auto, using(std::proofs::lemmas::List::Sums::position_or_len_is))]
fn dot_in(word: &[u8]) -> usize
    ensures is { result ≡ dot_in word.now }
    ensures within { result ≤ length word.now }
{
    for (index, byte) in word.iter().enumerate() {
        if *byte == DOT {
            return index;
        }
    }
    word.len()
}

/// What stands behind a place in a word.
fn behind(word: &[u8], place: usize) -> &[u8]
    requires { place ≤ length word.now }
    ensures { result.now ≡ drop (place + 1) word.now }
{
    if place < word.len() {
        &word[place + 1..]
    } else {
        &[]
    }
}

/// What stands behind `after T.K`.
#[tactic(auto, unfolding(crate::specs::Prefixes::behind_after))]
pub fn behind_after(rest: &[u8]) -> &[u8]
    ensures { result.now ≡ behind_after rest.now }
{
    if first_word(rest) == b"after".as_slice() {
        after_word(after_word(rest))
    } else {
        rest
    }
}

/// When a call is made, by what stands behind its task, or behind `after T.K`; None where `if`
/// stands there, and neither `ok` nor `refused` behind it.
#[tactic(auto, unfolding(crate::specs::Prefixes::when_at))]
pub fn when_at(rest: &[u8]) -> Option<When>
    ensures { result ≡ when_at rest.now }
{
    if first_word(rest) == b"if".as_slice() {
        branch_named(first_word(after_word(rest)))
    } else {
        Some(When::Always)
    }
}

/// When a call is made, by the word behind `if`.
#[tactic(auto, unfolding(crate::specs::Prefixes::branch_named))]
fn branch_named(word: &[u8]) -> Option<When>
    ensures { result ≡ branch_named word.now }
{
    if word == b"ok".as_slice() {
        Some(When::IfOk)
    } else if word == b"refused".as_slice() {
        Some(When::IfRefused)
    } else {
        None
    }
}

/// What stands behind `if ok` or `if refused`.
#[tactic(auto, unfolding(crate::specs::Prefixes::behind_branch))]
fn behind_branch(rest: &[u8]) -> &[u8]
    ensures { result.now ≡ behind_branch rest.now }
{
    if first_word(rest) == b"if".as_slice() {
        after_word(after_word(rest))
    } else {
        rest
    }
}

/// Whether a call is made again while it is refused, by what stands there.
#[tactic(auto, unfolding(crate::specs::Prefixes::retries_at))]
pub fn retries_at(rest: &[u8]) -> bool
    ensures { result ≡ retries_at rest.now }
{
    first_word(behind_branch(rest)) == b"retry".as_slice()
}

/// The command, behind the prefix.
#[tactic(auto, unfolding(crate::specs::Prefixes::command_at))]
pub fn command_at(rest: &[u8]) -> &[u8]
    ensures { result.now ≡ command_at rest.now }
{
    let command = behind_branch(rest);
    if retries_at(rest) {
        after_word(command)
    } else {
        command
    }
}

/// Prints a line without its prefix.
#[tactic(auto, unfolding(crate::specs::Prefixes::without_prefix))]
pub fn print_without_prefix(line: &[u8], out: &mut Output)
    ensures { Prints out.old out.new (without_prefix line.now) }
{
    out.text(first_word(line));
    out.text(b" ");
    out.text(command_at(behind_after(after_word(line))));
}
