//! What is wrong with a line, and how to mend it.

use crate::contexts::Context;
use crate::forms::{
    ALONE, CHOICES, CLAIMS, CONFIG, CONFIGS, HOOKS, LIMITS, TYPED, arguments_of, put_form, told_of,
    words_with,
};
use crate::places::{Place, byte_in, comment_in, empty_word, end_of, word_after, words_from};
use crate::race_hints::{find_in_race, prefix_length};
use crate::texts::Text;
use schedule_lines::numbers::{is_digits, number_of};
use schedule_lines::words::word_count;
use schedule_lines::{Fault, FaultKind};

/// Finds the part of a line that is at fault, and tells how to mend it.
pub(crate) fn find<'a>(
    help: &mut Text,
    fault: FaultKind,
    line: &'a [u8],
    context: Context,
) -> Place<'a> {
    if fault == FaultKind::Schedule(Fault::CutOff) {
        help.put("the last line has no newline at its end: add one");
        return end_of(line);
    }
    if let Some(place) = find_race_given(help, fault, line, context) {
        return place;
    }
    match find_bytes(help, line) {
        Some(place) => place,
        None => find_word(help, fault, line, context),
    }
}

/// Finds the line `race` where a schedule is expected.
fn find_race_given<'a>(
    help: &mut Text,
    fault: FaultKind,
    line: &'a [u8],
    context: Context,
) -> Option<Place<'a>> {
    let race = word_after(line, 0);
    match context {
        Context::Schedule(_)
            if fault == FaultKind::Schedule(Fault::UnknownCommand)
                && race.part == b"race".as_slice() => {
            help.put("this is a race: 'mntgate outcomes' lists its outcomes");
            Some(race)
        }
        _ => None,
    }
}

/// Finds bytes that are in no line of a schedule, but in what some editors write.
fn find_bytes<'a>(help: &mut Text, line: &'a [u8]) -> Option<Place<'a>> {
    if line.starts_with(b"\xef\xbb\xbf") {
        help.put("the file begins with a byte order mark: write it without one");
        return Some(Place {
            part: line.get(..3)?,
            column: 1,
        });
    }
    if line.starts_with(b"\xff\xfe") || line.starts_with(b"\xfe\xff") {
        help.put("the file is UTF-16: write it as UTF-8, without a byte order mark");
        return Some(Place {
            part: line.get(..2)?,
            column: 1,
        });
    }
    if let Some(place) = byte_in(line, b'\r') {
        help.put("a carriage return stands here: end lines with a newline alone");
        return Some(place);
    }
    if let Some(place) = byte_in(line, b'\t') {
        help.put("a tab stands here: write one space between two words");
        return Some(place);
    }
    find_spaces(help, line)
}

/// Finds spaces that are too many, and a comment behind a command.
fn find_spaces<'a>(help: &mut Text, line: &'a [u8]) -> Option<Place<'a>> {
    if let Some(place) = comment_in(line) {
        help.put("a comment has a line of its own, which begins with '#'");
        return Some(place);
    }
    let place = empty_word(line)?;
    help.put("a space is too many: one stands between two words, and none at either end");
    Some(place)
}

/// Finds the word at fault.
fn find_word<'a>(help: &mut Text, fault: FaultKind, line: &'a [u8], context: Context) -> Place<'a> {
    match context {
        Context::Opening => find_in_config(help, fault, line),
        Context::Schedule(tasks) => find_in_command(help, fault, line, tasks, false),
        Context::Race(tasks) => match find_in_race(help, fault, line) {
            Some(place) => place,
            None => find_in_call(help, fault, line, tasks),
        },
    }
}

/// Finds what is wrong with a first line.
fn find_in_config<'a>(help: &mut Text, fault: FaultKind, line: &'a [u8]) -> Place<'a> {
    match fault {
        FaultKind::Schedule(Fault::ConfigExpected) => {
            let first = word_after(line, 0);
            match help.nearest(first.part, CONFIGS.as_slice()) {
                Some(_) => help.put("did you mean 'config'?"),
                None => tell_first_line(help),
            }
            first
        }
        FaultKind::Schedule(Fault::WrongNumberOfWords) => {
            help.quoted("its form is", CONFIG);
            end_or_rest(line, word_count(CONFIG.as_bytes()))
        }
        FaultKind::Schedule(Fault::Refused(_)) => find_limit(help, line),
        _ => find_number(help, line, 1),
    }
}

/// Tells what the first line has to be.
pub(crate) fn tell_first_line(help: &mut Text) {
    help.quoted("the first line is", CONFIG);
    help.put(", as 'config 2 1 1 2 8'");
}

/// Finds what is wrong with a line behind the configuration, where there are so many tasks: in a race, or in a schedule.
fn find_in_command<'a>(
    help: &mut Text,
    fault: FaultKind,
    line: &'a [u8],
    tasks: u8,
    is_race: bool,
) -> Place<'a> {
    let first = word_after(line, 0);
    if !is_digits(first.part) {
        return find_alone(help, fault, line, is_race);
    }
    match fault {
        FaultKind::Schedule(Fault::UnknownCommand) => {
            find_verb(help, word_after(line, 1), is_race)
        }
        FaultKind::Schedule(Fault::NoSuchTask) => {
            tell_tasks(help, tasks);
            first
        }
        _ => find_argument(help, fault, line),
    }
}

/// Finds what is wrong with a line of a race that may have a prefix before its command.
fn find_in_call<'a>(help: &mut Text, fault: FaultKind, line: &'a [u8], tasks: u8) -> Place<'a> {
    let prefix = prefix_length(line);
    if prefix == 0 || fault == FaultKind::Schedule(Fault::NoSuchTask) {
        return find_in_command(help, fault, line, tasks, true);
    }
    // The last word of the prefix stands where a line without one has its task.
    let call = words_from(line, prefix);
    let place = match fault {
        FaultKind::Schedule(Fault::UnknownCommand) => {
            find_verb(help, word_after(call.part, 1), true)
        }
        _ => find_argument(help, fault, call.part),
    };
    Place {
        part: place.part,
        column: place.column.saturating_add(call.column).saturating_sub(1),
    }
}

/// Finds what is wrong with a line that doesn't begin with a number.
fn find_alone<'a>(help: &mut Text, fault: FaultKind, line: &'a [u8], is_race: bool) -> Place<'a> {
    let first = word_after(line, 0);
    match fault {
        FaultKind::Schedule(Fault::ConfigTwice) => help.put(
            "a schedule has one configuration, its first line",
        ),
        FaultKind::Schedule(Fault::UnknownCommand) => tell_no_command(help, line, is_race),
        FaultKind::UnderWay => {
            help.put("each call before 'race' has to end there: 'T run' until it is answered");
        }
        _ => {
            help.put("'");
            help.bytes(first.part);
            help.put("' stands alone on its line");
            return end_or_rest(line, 1);
        }
    }
    first
}

/// Tells what may be meant by a first word that is no command: one that stands alone or claims something of a race, or one on a task, whose
/// number is missing.
fn tell_no_command(help: &mut Text, line: &[u8], is_race: bool) {
    let word = word_after(line, 0).part;
    if let Some(text) = told_of(TYPED.as_slice(), word) {
        return help.put(text);
    }
    if arguments_of(word).is_some() {
        help.put("a line begins with the number of a task: '0 ");
        help.bytes(line);
        return help.put("'");
    }
    let forms = if is_race {
        CLAIMS.as_slice()
    } else {
        ALONE.as_slice()
    };
    if let Some(name) = help.nearest(word, forms) {
        return tell_near(help, name);
    }
    match help.nearest_verb(word) {
        Some(name) => {
            help.quoted("did you mean", name);
            help.put(", behind the number of a task?");
        }
        None if is_race => help.put(
            "a line begins with the number of a task, or with 'never', 'sometimes', 'always' or 'invariant'",
        ),
        None => help.put(
            "a line is 'words', 'tree' or 'model', or begins with the number of a task",
        ),
    }
}

/// Asks whether this word was meant.
fn tell_near(help: &mut Text, name: &str) {
    help.quoted("did you mean", name);
    help.put("?");
}

/// Returns what is printed of a word that stands where a command has to, and that only a race knows, or only in another place.
fn misplaced(word: &[u8], is_race: bool) -> Option<&'static str> {
    let is_hook = word == b"hook".as_slice();
    let is_prefix = word == b"after".as_slice()
        || word == b"if".as_slice()
        || word == b"retry".as_slice();
    match (is_hook, is_prefix) {
        (true, _) if is_race => Some(
            "a line 'hook' speaks of the task's last call, and has no prefix",
        ),
        (true, _) => Some(
            "'hook' stands behind a line 'race'; here 'T run HOOK CODE' lets a hook fail",
        ),
        (_, true) if is_race => Some(
            "a line has 'after T.K' first, then 'if ok' or 'if refused', then 'retry', then its call",
        ),
        (_, true) => Some("'after', 'if' and 'retry' stand behind a line 'race'"),
        _ => None,
    }
}

/// Tells what may be meant by a second word that is no command on a task.
fn find_verb<'a>(help: &mut Text, place: Place<'a>, is_race: bool) -> Place<'a> {
    if let Some(text) = misplaced(place.part, is_race) {
        help.put(text);
        return place;
    }
    let near = if is_race {
        help.nearest(place.part, HOOKS.as_slice())
    } else {
        None
    };
    match near.or(help.nearest_verb(place.part)) {
        Some(name) => tell_near(help, name),
        None => help.put("there is no such command on a task"),
    }
    place
}

/// Tells which tasks there are.
fn tell_tasks(help: &mut Text, tasks: u8) {
    if tasks > 1 {
        help.put("the tasks are 0 to ");
        help.put(tasks.saturating_sub(1));
    } else {
        help.put("the one task is 0");
    }
}

/// Finds what is wrong with the arguments of a command on a task. A code is the last of them.
fn find_argument<'a>(help: &mut Text, fault: FaultKind, line: &'a [u8]) -> Place<'a> {
    let verb = word_after(line, 1);
    let Some(arguments) = arguments_of(verb.part) else {
        help.put("a command follows the number of its task");
        return verb;
    };
    match fault {
        FaultKind::Schedule(Fault::BadWord) => find_choice(help, line, arguments),
        FaultKind::Schedule(Fault::BadNumber)
            if arguments.ends_with("CODE]") || arguments.ends_with(" CODE") => {
            help.put("a code is a number from 1 to 65535");
            word_after(line, word_count(line).saturating_sub(1))
        }
        FaultKind::Schedule(Fault::BadNumber) => find_number(help, line, 2),
        _ => {
            put_form(help, "its form is", verb.part, arguments);
            end_or_rest(line, words_with(arguments))
        }
    }
}

/// Returns what a line has behind so many words; its end, if it has nothing there.
fn end_or_rest<'a>(line: &'a [u8], count: usize) -> Place<'a> {
    let rest = words_from(line, count);
    if rest.part.is_empty() {
        end_of(line)
    } else {
        rest
    }
}

/// Finds the first word behind so many that is no number.
fn find_number<'a>(help: &mut Text, line: &'a [u8], before: usize) -> Place<'a> {
    for number in before..word_count(line) {
        let place = word_after(line, number);
        if number_of(place.part).is_none() {
            help.put("a number has 1 to 10 digits and is at most 4294967295");
            return place;
        }
    }
    end_of(line)
}

/// Finds the word in whose place one of some words has to stand.
fn find_choice<'a>(help: &mut Text, line: &'a [u8], arguments: &str) -> Place<'a> {
    let arguments = arguments.as_bytes();
    for number in 0..word_count(arguments) {
        if let Some(text) = told_of(CHOICES.as_slice(), word_after(arguments, number).part) {
            help.put(text);
            return word_after(line, number.saturating_add(2));
        }
    }
    end_of(line)
}

/// Finds the first number of a configuration that is out of its limits.
fn find_limit<'a>(help: &mut Text, line: &'a [u8]) -> Place<'a> {
    for (number, (least, most, text)) in LIMITS.iter().enumerate() {
        let place = word_after(line, number.saturating_add(1));
        let given = number_of(place.part).unwrap_or(0);
        if given < *least || *most < given {
            help.put(*text);
            return place;
        }
    }
    word_after(line, 0)
}
