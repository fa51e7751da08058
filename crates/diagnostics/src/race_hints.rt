//! What is wrong with a line behind `race`, and how to mend it.

use crate::forms::{HOOK, put_form};
use crate::places::{Place, word_after};
use crate::texts::Text;
use schedule_lines::FaultKind;

/// Finds what is wrong with a line behind `race` that a schedule's line can't have; None if it is nothing of a race's own.
pub(crate) fn find_in_race<'a>(
    help: &mut Text,
    fault: FaultKind,
    line: &'a [u8],
) -> Option<Place<'a>> {
    match fault {
        FaultKind::RaceTwice => help.put("a race has one line 'race'"),
        FaultKind::TooManyCalls => help.put("a task has at most 8 calls"),
        FaultKind::HookTwice => help.put(
            "one hook of a call may fail: this call has a line 'hook' already",
        ),
        FaultKind::BranchExpected => {
            help.put("'ok' or 'refused' stands behind 'if', as in '0 if ok thaw'");
            return Some(word_after(line, order_length(line).saturating_add(2)));
        }
        FaultKind::NameExpected => {
            help.put(
                "behind 'after' stands a call, as in '1 after 0.2 freeze': call 2 of task 0, from 0",
            );
            return Some(word_after(line, 2));
        }
        FaultKind::NoSuchCall => {
            help.put(
                "a call comes after one of the lines before; each task counts its calls from 0",
            );
            return Some(word_after(line, 2));
        }
        FaultKind::NoCallBefore => help.put(
            "'if' asks what the task's last call answered, and this is its first",
        ),
        FaultKind::CallExpected => return Some(find_no_call(help, line)),
        _ => return None,
    }
    Some(word_or_first(line, 1))
}

/// Returns the word of a line with so many before it; the first word, where there is no such one.
fn word_or_first<'a>(line: &'a [u8], before: usize) -> Place<'a> {
    let word = word_after(line, before);
    if word.part.is_empty() {
        word_after(line, 0)
    } else {
        word
    }
}

/// Returns how many words `after T.K` has on a line, behind its task: none if it isn't there.
fn order_length(line: &[u8]) -> usize {
    if is_word_at(line, 1, b"after") { 2 } else { 0 }
}

/// Returns how many words stand between the task of a line and its command: `after T.K`, `if ok`,
/// `if refused` and `retry`.
pub(crate) fn prefix_length(line: &[u8]) -> usize {
    let order = order_length(line);
    let branch = if is_word_at(line, order.saturating_add(1), b"if") {
        order.saturating_add(2)
    } else {
        order
    };
    let next = branch.saturating_add(1);
    if is_word_at(line, next, b"retry") {
        next
    } else {
        branch
    }
}

/// Whether a line has this word behind so many.
fn is_word_at(line: &[u8], before: usize, word: &[u8]) -> bool {
    word_after(line, before).part == word
}

/// Finds what is no call on a line.
fn find_no_call<'a>(help: &mut Text, line: &'a [u8]) -> Place<'a> {
    let prefix = prefix_length(line);
    let before = prefix.saturating_add(1);
    if prefix > 0 && word_after(line, before).part.is_empty() {
        help.put("a call stands behind it, as in '0 retry remount ro'");
        return word_after(line, prefix);
    }
    tell_no_call(help, line);
    word_or_first(line, before)
}

/// Tells what is wrong with a line that is no call.
fn tell_no_call(help: &mut Text, line: &[u8]) {
    if word_after(line, 1).part == b"hook".as_slice() {
        help.put("a hook fails in the last call before its line: write the call of task ");
        help.bytes(word_after(line, 0).part);
        help.put(" first");
    } else {
        let told = "behind 'race' a line is a task's call, as '0 freeze', or";
        put_form(help, told, b"hook", HOOK);
        help.put("; every interleaving is tried, so no line takes steps");
    }
}
