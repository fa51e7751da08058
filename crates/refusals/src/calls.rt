//! The names of the calls.

use diagnostics::Nearest;
use schedule_text::Verb;
use std::alloc::Global;

/// The calls that no command of a schedule begins, on a line each, by their names.
pub(crate) const OTHERS: &str = "\
Gates::new mntgate_open
split Task::split mntgate_split
join Task::join mntgate_join
Gates::close mntgate_close mntgate_close_words
run run_with
";

/// Returns the first name of the call that has this name: that of a schedule's command, or else the library's. A call from C has the library's
/// name behind `mntgate_`, unless a line of OTHERS has it. A form of a call has the call's name before `_at_once` or `_within`.
pub(crate) fn call_named(word: &str) -> Option<&'static str> {
    for call in OTHERS.lines() {
        if is_named(call, word) {
            return Some(first_name(call));
        }
    }
    let name = word.strip_prefix("mntgate_").unwrap_or(word);
    let name = name
        .strip_suffix("_at_once")
        .or(name.strip_suffix("_within"))
        .unwrap_or(name);
    for verb in &Verb::ALL {
        if let Some(names) = verb.call_names()
            && (verb.name() == word || is_named(names, name))
        {
            return Some(verb.name());
        }
    }
    None
}

/// Returns the name of a call that is nearest to a word, if one is near and there is memory to find it.
pub(crate) fn nearest_call(alloc: Global, word: &str) -> Option<&'static str> {
    let mut nearest = Nearest::new(alloc, word);
    for verb in &Verb::ALL {
        if let Some(names) = verb.call_names() {
            nearest.compare(verb.name());
            compare_names(&mut nearest, names);
        }
    }
    for call in OTHERS.lines() {
        compare_names(&mut nearest, call);
    }
    nearest.name
}

/// Compares each of these names.
fn compare_names(nearest: &mut Nearest<'_>, names: &'static str) {
    for name in names.split(' ') {
        nearest.compare(name);
    }
}

/// Whether a name is among these.
pub(crate) fn is_named(names: &str, word: &str) -> bool {
    names.split(' ').any(|name| name == word)
}

/// Returns the first of a call's names.
pub(crate) fn first_name(call: &'static str) -> &'static str {
    call.split_once(' ').unwrap_or((call, "")).0
}
