//! The hooks that fail in a recorded call.

ghost use Rattle.std.specs.Prelude.{◌≡◌};
ghost use Rattle.std.specs.List.{position};
ghost use Rattle.history_files.specs.Records.{failing, failing_from, failure_of, fails, with_failure};

use crate::faults::HistoryFault;
use race_files::RaceFault;
use races::{CALLS, Call};
use schedule_lines::Fault;
use schedule_lines::numbers::code_of;
use schedule_lines::words::{after_word, first_word, word_count};
use schedule_text::HookFailure;
use schedule_text::commands::hook_named;

/// The failure that is told by the words behind `hook`.
///
/// # Errors
///
/// If they aren't two, name no hook, or have no code.
#[tactic(auto, unfolding(crate::specs::Records::failure_of))]
pub fn failure_of(words: &[u8]) -> Result<HookFailure, Fault>
    ensures { result ≡ failure_of words.now }
{
    if word_count(words) != 2 {
        return Err(Fault::WrongNumberOfWords);
    }
    let Some(hook) = hook_named(first_word(words)) else {
        return Err(Fault::BadWord);
    };
    match code_of(after_word(words)) {
        Some(code) => Ok(HookFailure { hook, code }),
        None => Err(Fault::BadNumber),
    }
}

/// Returns these operations, in each of which the hook fails.
///
/// # Errors
///
/// If one fails in them already.
pub fn failing(
    calls: &[Option<Call>; CALLS],
    failure: HookFailure,
) -> Result<[Option<Call>; CALLS], HistoryFault>
    ensures { result ≡ failing calls.now failure }
{
    if first_failing(calls).is_some() {
        return Err(HistoryFault::Race(RaceFault::HookTwice));
    }
    Ok(all_failing(*calls, failure))
}

/// Returns these operations, in each of which the hook fails.
fn all_failing(mut row: [Option<Call>; CALLS], failure: HookFailure) -> [Option<Call>; CALLS]
    ensures { result ≡ failing_from 8 0 failure row }
{
    for turn in 0..CALLS {
        row[turn] = with_failure(row[turn], failure);
    }
    row
}

/// The first operation in which a hook fails.
fn first_failing(calls: &[Option<Call>]) -> Option<usize>
    ensures { result ≡ position fails calls.now }
{
    calls.iter().position(|call| fails(*call))
}

/// Whether a hook fails in an operation.
fn fails(call: Option<Call>) -> bool
    ensures { result ≡ fails call }
{
    match call {
        Some(call) => call.failure.is_some(),
        None => false,
    }
}

/// Returns this operation, in which the hook fails.
fn with_failure(call: Option<Call>, failure: HookFailure) -> Option<Call>
    ensures { result ≡ with_failure failure call }
{
    match call {
        Some(call) => Some(Call {
            failure: Some(failure),
            ..call
        }),
        None => None,
    }
}
