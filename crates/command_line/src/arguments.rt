//! The commands of the program and their arguments, as the parser of command lines is told of them.

ghost use Rattle.std.specs.Prelude.{◌≡◌, false, IfOk};
ghost use Rattle.clap.specs.Words.{app_of, rule_of};
ghost use Rattle.command_line.specs.CommandLine.{alone, argument_rule, mntgate_app, subcommand_shape};

use clap::builder::ValueParser;
use clap::{Arg, ArgAction, Command};
use std::alloc::{AllocError, Global};

/// The version of the program, and a second line, over which `bin/release` writes a release's commit and kit, byte for byte.
const VERSION: &str =
    "1.2.0\nno release, which would name its commit and its kit here; bin/mntgate tells which kit built this";

/// The argument that names a schedule's file.
pub(crate) const FILE: &str = "FILE";

/// The flag of a replay over the gates that threads use.
pub(crate) const OVER_GATES: &str = "over-gates";

/// The flags of what is printed of a replay.
pub(crate) const EVENTS: &str = "events";

pub(crate) const COLUMNS: &str = "columns";

pub(crate) const JSON: &str = "json";

pub(crate) const HTML: &str = "html";

/// The options of how words and their values are printed.
pub(crate) const RAW: &str = "raw";

pub(crate) const NAMES: &str = "names";

/// The flag of a replay that tells what helps after a fault.
pub(crate) const EXPLAIN: &str = "explain";

/// The flag of a check that writes what is printed into the files.
pub(crate) const BLESS: &str = "bless";

/// The arguments of an explanation.
pub(crate) const CALL: &str = "CALL";

pub(crate) const REFUSAL: &str = "REFUSAL";

/// The option of a run for how often a freeze looks again before it gives up.
pub(crate) const PATIENCE: &str = "patience";

/// The flag of a run that tells what its tasks met.
pub(crate) const DETAILS: &str = "details";

/// The flags of what is printed of the outcomes of a race.
pub(crate) const SCHEDULES: &str = "schedules";

pub(crate) const MODEL: &str = "model";

pub(crate) const ENDS: &str = "ends";

pub(crate) const SAVE: &str = "save";

pub(crate) const LIMIT: &str = "limit";

pub(crate) const NO_REDUCTION: &str = "no-reduction";

/// A command of the program, with its arguments in their order.
#[derive(Clone, Copy)]
struct Subcommand {
    name: &'static str,
    about: &'static str,
    arguments: &'static [Argument],
}

/// An argument of a command.
#[derive(Clone, Copy)]
struct Argument {
    name: &'static str,
    kind: ArgumentKind,
    help: &'static str,
}

/// What an argument is given as.
#[derive(Clone, Copy)]
enum ArgumentKind {
    /// A word at its place, or none.
    Word,
    /// Words at their place, or none.
    Words,
    /// `--NAME`, or not.
    Flag,
    /// `--NAME` and a number, which help calls so, from the least to the most; and whether it has to be there.
    Number(&'static str, u64, u64, bool),
    /// `--NAME` and a word, which help calls so, or not.
    Choice(&'static str),
}

const SUBCOMMANDS: [Subcommand; 6] = [
    Subcommand {
        name: "replay",
        about: "Replays a schedule, and prints what its lines ask for",
        arguments: &[
            Argument {
                name: FILE,
                kind: ArgumentKind::Word,
                help: "Its file; standard input, where none is named, or '-'",
            },
            Argument {
                name: EVENTS,
                kind: ArgumentKind::Flag,
                help: "Prints each beginning and each step, and for whom a task waits",
            },
            Argument {
                name: COLUMNS,
                kind: ArgumentKind::Flag,
                help: "Prints them in a column for each task",
            },
            Argument {
                name: JSON,
                kind: ArgumentKind::Flag,
                help: "Prints a line of JSON for each beginning, step, answer and listing",
            },
            Argument {
                name: HTML,
                kind: ArgumentKind::Flag,
                help: "Prints a page with a picture of them",
            },
            Argument {
                name: RAW,
                kind: ArgumentKind::Flag,
                help: "Prints values as numbers in these forms",
            },
            Argument {
                name: NAMES,
                kind: ArgumentKind::Choice("WHOSE"),
                help: "Names words in these forms as 'schedule' or as 'kernel' does",
            },
            Argument {
                name: OVER_GATES,
                kind: ArgumentKind::Flag,
                help: "Replays it over the gates that threads use, in one thread",
            },
            Argument {
                name: EXPLAIN,
                kind: ArgumentKind::Flag,
                help: "Tells a fault with its line, and how to mend it, as on a terminal",
            },
        ],
    },
    Subcommand {
        name: "check",
        about: "Replays schedules and lists outcomes of races, and compares what they print with their lines '#> TEXT'",
        arguments: &[
            Argument {
                name: FILE,
                kind: ArgumentKind::Words,
                help: "Their files; standard input, where none is named, or '-'",
            },
            Argument {
                name: BLESS,
                kind: ArgumentKind::Flag,
                help: "Writes what they print into the files, in the place of what they say of it",
            },
        ],
    },
    Subcommand {
        name: "explain",
        about: "Explains a refusal: what it means, what the state is now, what to do next, and what never to do",
        arguments: &[
            Argument {
                name: CALL,
                kind: ArgumentKind::Word,
                help: "A call, as 'remount' or 'remount_sb'; an index of all refusals, where none is named",
            },
            Argument {
                name: REFUSAL,
                kind: ArgumentKind::Word,
                help: "A refusal of it, as '16', 'EBUSY' or 'Busy'; all of the call, where none is named",
            },
        ],
    },
    Subcommand {
        name: "outcomes",
        about: "Prints all outcomes of a race: what its calls can answer, whatever their order",
        arguments: &[
            Argument {
                name: FILE,
                kind: ArgumentKind::Word,
                help: "Its file; standard input, where none is named, or '-'",
            },
            Argument {
                name: SCHEDULES,
                kind: ArgumentKind::Flag,
                help: "Prints a schedule for each outcome, with few switches between tasks",
            },
            Argument {
                name: COLUMNS,
                kind: ArgumentKind::Flag,
                help: "Prints one too, in a column for each task",
            },
            Argument {
                name: MODEL,
                kind: ArgumentKind::Flag,
                help: "Prints the final model of each outcome, or how many it has",
            },
            Argument {
                name: ENDS,
                kind: ArgumentKind::Flag,
                help: "Prints a line for each pair of answers and final model",
            },
            Argument {
                name: JSON,
                kind: ArgumentKind::Flag,
                help: "Prints a line of JSON for each outcome, and of what else is printed",
            },
            Argument {
                name: HTML,
                kind: ArgumentKind::Flag,
                help: "Prints a page with a picture of a schedule for each outcome",
            },
            Argument {
                name: RAW,
                kind: ArgumentKind::Flag,
                help: "Prints values as numbers",
            },
            Argument {
                name: NAMES,
                kind: ArgumentKind::Choice("WHOSE"),
                help: "Names words as 'schedule' or as 'kernel' does",
            },
            Argument {
                name: SAVE,
                kind: ArgumentKind::Choice("DIR"),
                help: "Writes a schedule for each outcome to a file in DIR, behind the set-up",
            },
            Argument {
                name: LIMIT,
                kind: ArgumentKind::Number("STATES", 1, 4_294_967_295, false),
                help: "How many states to search at most: 10000000, if not given; past it, the outcomes so far are printed",
            },
            Argument {
                name: NO_REDUCTION,
                kind: ArgumentKind::Flag,
                help: "Searches all states, also those that are not needed for the outcomes",
            },
        ],
    },
    Subcommand {
        name: "validate",
        about: "Says whether some execution has a history: what was recorded of calls; else its first line that none has",
        arguments: &[
            Argument {
                name: FILE,
                kind: ArgumentKind::Word,
                help: "Its file; standard input, where none is named, or '-'",
            },
            Argument {
                name: LIMIT,
                kind: ArgumentKind::Number("STATES", 1, 4_294_967_295, false),
                help: "How many states may stand between two lines of the record, with those to which the next line leads: 10000000, if not given",
            },
        ],
    },
    Subcommand {
        name: "run",
        about: "Runs writers, a remounter and a backup in threads, and prints what they did",
        arguments: &[
            Argument {
                name: "tasks",
                kind: ArgumentKind::Number("N", 3, 64, true),
                help: "Tasks, each in a thread of its own: 3 to 64",
            },
            Argument {
                name: "cpus",
                kind: ArgumentKind::Number("N", 1, 64, true),
                help: "Processors, with count words of their own: 1 to 64",
            },
            Argument {
                name: "rounds",
                kind: ArgumentKind::Number("N", 1, 10_000, true),
                help: "Rounds of each writer and of the remounter: 1 to 10000",
            },
            Argument {
                name: "freezes",
                kind: ArgumentKind::Number("N", 0, 1_000, true),
                help: "Freezes, each with a snapshot: 0 to 1000",
            },
            Argument {
                name: PATIENCE,
                kind: ArgumentKind::Number("N", 0, 4_294_967_295, false),
                help: "How often a freeze that finds somebody inside looks again before it gives up: as long as it takes, if not given",
            },
            Argument {
                name: DETAILS,
                kind: ArgumentKind::Flag,
                help: "Prints after that what they met: refusals, waits, snapshots' sizes, time",
            },
        ],
    },
];

/// The command line: each command of the program.
pub(crate) fn command<'a>(alloc: Global) -> Result<Command<'a>, AllocError>
    ensures { IfOk result (λ command. app_of command ≡ mntgate_app) }
{
    let mut program = Command::new(alloc, "mntgate")
        .about("Write gates of a mounted file system")
        .version(VERSION)
        .subcommand_required(true);
    for subcommand in SUBCOMMANDS.iter() {
        program = program.subcommand(subcommand_of(alloc, subcommand)?)?;
    }
    Ok(program)
}

/// A command of the program, with its arguments in their order.
fn subcommand_of<'a>(alloc: Global, subcommand: &Subcommand) -> Result<Command<'a>, AllocError>
    ensures { IfOk result (λ command. app_of command ≡ alone (subcommand_shape subcommand.now)) }
{
    let mut command = Command::new(alloc, subcommand.name).about(subcommand.about);
    for argument in subcommand.arguments {
        command = command.arg(argument_of(alloc, argument))?;
    }
    Ok(command)
}

/// An argument of a command.
fn argument_of<'a>(alloc: Global, argument: &Argument) -> Arg<'a>
    ensures rule { rule_of result ≡ argument_rule argument.now }
    ensures local { result.global ≡ false }
{
    let Argument { name, kind, help } = *argument;
    let made = Arg::new(alloc, name).help(help);
    match kind {
        ArgumentKind::Word => made,
        ArgumentKind::Words => made.num_args(1..),
        ArgumentKind::Flag => made.long(name).action(ArgAction::SetTrue),
        ArgumentKind::Number(value, least, most, is_needed) => made
            .long(name)
            .value_name(value)
            .value_parser(ValueParser::unsigned(least, most))
            .required(is_needed),
        ArgumentKind::Choice(value) => made.long(name).value_name(value),
    }
}
