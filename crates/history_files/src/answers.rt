//! What is recorded of a call's answer.

ghost use Rattle.std.specs.Prelude.{◌≡◌};
ghost use Rattle.std.specs.List.{find};
ghost use Rattle.history_files.specs.Answers.{begins_answer, errno_told, hook_refused, is_reason, node_told, reason_of, reasons, recorded_of, refused_of, replied_of};

use access_model::{GateError, Reply};
use histories::Recorded;
use schedule_lines::numbers::{code_of, number_of};
use schedule_lines::words::{after_word, first_word, is_word};

/// All refusals that have a name.
const REASONS: [GateError; 11] = [
    GateError::NoEntry,
    GateError::Again,
    GateError::NoMemory,
    GateError::Busy,
    GateError::NotDir,
    GateError::IsDir,
    GateError::Invalid,
    GateError::TooMany,
    GateError::NoSpace,
    GateError::ReadOnly,
    GateError::Order,
];

/// Whether a word is the first of an answer: `ok`, `refused` or `?`.
pub fn begins_answer(word: &[u8]) -> bool
    ensures { result ≡ begins_answer word.now }
{
    is_word(word, "ok") || is_word(word, "refused") || is_word(word, "?")
}

/// What is known of an answer that is told by these words; None if no answer is.
#[tactic(auto, unfolding(crate::specs::Answers::recorded_of))]
pub fn recorded_of(words: &[u8]) -> Option<Recorded>
    ensures { result ≡ recorded_of words.now }
{
    if is_word(words, "?") {
        Some(Recorded::Unknown)
    } else if is_word(words, "ok") {
        Some(Recorded::Done)
    } else if is_word(words, "refused") {
        Some(Recorded::Refused)
    } else if is_word(first_word(words), "ok") {
        replied_of(after_word(words))
    } else if is_word(first_word(words), "refused") {
        refused_of(after_word(words))
    } else {
        None
    }
}

/// What is known by the words behind `ok`.
#[tactic(auto, unfolding(crate::specs::Answers::replied_of))]
fn replied_of(words: &[u8]) -> Option<Recorded>
    ensures { result ≡ replied_of words.now }
{
    if is_word(words, "ran") {
        Some(Recorded::Replied(Reply::Ran(true)))
    } else if is_word(words, "none") {
        Some(Recorded::Replied(Reply::Ran(false)))
    } else if is_word(first_word(words), "node") {
        node_told(number_of(after_word(words)))
    } else {
        None
    }
}

/// The number of a node, which is a byte.
fn node_told(node: Option<u32>) -> Option<Recorded>
    ensures { result ≡ node_told node }
{
    match node {
        Some(node) if node < 256 => Some(Recorded::Replied(Reply::Node(node as u8))),
        _ => None,
    }
}

/// What is known by the words behind `refused`: an errno, an errno and its name, or `hook` and a code.
#[tactic(auto, unfolding(crate::specs::Answers::refused_of))]
fn refused_of(words: &[u8]) -> Option<Recorded>
    ensures { result ≡ refused_of words.now }
{
    if is_word(first_word(words), "hook") {
        hook_refused(code_of(after_word(words)))
    } else {
        errno_told(code_of(words), words)
    }
}

/// An errno that stands alone, or else before a name.
fn errno_told(errno: Option<u16>, words: &[u8]) -> Option<Recorded>
    ensures { result ≡ errno_told errno words.now }
{
    match errno {
        Some(errno) => Some(Recorded::Errno(errno)),
        None => reason_of(code_of(first_word(words)), after_word(words)),
    }
}

/// That a hook failed with a code.
fn hook_refused(code: Option<u16>) -> Option<Recorded>
    ensures { result ≡ hook_refused code }
{
    match code {
        Some(code) => Some(Recorded::RefusedFor(GateError::Hook(code))),
        None => None,
    }
}

/// The refusal of an errno and a name.
fn reason_of(errno: Option<u16>, name: &[u8]) -> Option<Recorded>
    ensures { result ≡ reason_of errno name.now }
{
    let Some(errno) = errno else {
        return None;
    };
    match find_reason(errno, name) {
        Some(reason) => Some(Recorded::RefusedFor(reason)),
        None => None,
    }
}

/// The first refusal that has this errno and this name.
fn find_reason(errno: u16, name: &[u8]) -> Option<GateError>
    ensures { result ≡ find (is_reason errno name.now) reasons }
{
    REASONS
        .iter()
        .copied()
        .find(|reason| is_reason(*reason, errno, name))
}

/// Whether a refusal has this errno and this name.
fn is_reason(reason: GateError, errno: u16, name: &[u8]) -> bool
    ensures { result ≡ is_reason errno name.now reason }
{
    reason.number() == errno && is_word(name, reason.name())
}
