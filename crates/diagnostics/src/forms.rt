//! The forms of commands, as they are told to a person.

use crate::texts::Text;
use schedule_lines::words::word_count;
use schedule_text::Verb;

/// A word, and what is printed of it.
pub(crate) type Form = (&'static str, &'static str);

/// The form of a configuration.
pub(crate) const CONFIG: &str = "config TASKS CPUS MOUNTS NODES CAPACITY";

/// The least and the most that numbers of a configuration may be, in their order, with how they are printed.
pub(crate) static LIMITS: [(u32, u32, &str); 4] = [
    (1, 64, "TASKS is 1 to 64"),
    (1, 64, "CPUS is 1 to 64"),
    (1, 8, "MOUNTS is 1 to 8"),
    (2, 64, "NODES is 2 to 64"),
];

/// The command that configures, with its form.
pub(crate) static CONFIGS: [Form; 1] = [("config", CONFIG)];

/// The commands that stand alone on their line, which is their form.
pub(crate) static ALONE: [Form; 3] = [("words", "words"), ("tree", "tree"), ("model", "model")];

/// The words by which a line behind `race` claims something, with their forms.
pub(crate) static CLAIMS: [Form; 4] = [
    ("never", "never CONDITION"),
    ("sometimes", "sometimes CONDITION"),
    ("always", "always CONDITION"),
    ("invariant", "invariant CONDITION"),
];

/// The arguments of `hook`, the line of a race by which a hook fails in a task's last call.
pub(crate) const HOOK: &str = "sync|freeze|unfreeze|reconfigure|wait CODE";

/// The commands that stand behind the number of a task only in a race, with their arguments.
pub(crate) static HOOKS: [Form; 1] = [("hook", HOOK)];

/// Words that people type at a prompt, with what helps them.
pub(crate) static TYPED: [Form; 5] = [
    ("help", HELP),
    ("?", HELP),
    ("quit", "Ctrl-D ends a schedule"),
    ("exit", "Ctrl-D ends a schedule"),
    ("q", "Ctrl-D ends a schedule"),
];

const HELP: &str =
    "a line is 'words', 'tree', 'model' or 'T COMMAND', as '0 want 0 0' and then '0 run'; docs/schedules.md has them all; Ctrl-D ends it";

/// What is printed of the arguments of forms of which one of some words stands there.
pub(crate) static CHOICES: [Form; 5] = [
    ("ro|rw", "ro|rw is expected"),
    ("[kernel|user]", "kernel|user is expected"),
    ("file|dir", "file|dir is expected"),
    (
        "[sync|freeze|unfreeze|reconfigure|wait",
        "sync|freeze|unfreeze|reconfigure|wait is expected",
    ),
    (
        "sync|freeze|unfreeze|reconfigure|wait",
        "sync|freeze|unfreeze|reconfigure|wait is expected",
    ),
];

/// Returns what is printed of a word in some forms.
pub(crate) fn told_of(forms: &[Form], word: &[u8]) -> Option<&'static str> {
    for (name, text) in forms {
        if name.as_bytes() == word {
            return Some(*text);
        }
    }
    None
}

/// Returns the arguments of a command that stands behind the number of a task, in a schedule or in a race.
pub(crate) fn arguments_of(word: &[u8]) -> Option<&'static str> {
    match Verb::of(word) {
        Some(verb) => Some(verb.row().arguments),
        None => told_of(HOOKS.as_slice(), word),
    }
}

/// Returns how many words a line has with all these arguments: its task and its command stand before them.
pub(crate) fn words_with(arguments: &str) -> usize {
    if arguments.is_empty() {
        2
    } else {
        word_count(arguments.as_bytes()).saturating_add(2)
    }
}

/// Puts the form of a line on a task in quotes, behind another text.
pub(crate) fn put_form(help: &mut Text, before: &str, command: &[u8], arguments: &str) {
    help.put(before);
    help.put(" 'T ");
    help.bytes(command);
    if !arguments.is_empty() {
        help.put(" ");
        help.put(arguments);
    }
    help.put("'");
}
