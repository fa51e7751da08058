//! The words of a command line.

ghost use Rattle.std.specs.Prelude.{◌≡◌, ◌⊎◌, true, false, None, Some, IfOk, map, codes, string_bytes};
ghost use Rattle.clap.specs.Words.{first_of, found_of, kind_of, one_of, rows_of, subcommand_rows_of};
ghost use Rattle.clap.specs.declared.error.kind.ErrorKind.TheVariants.{OutOfMemory};
ghost use Rattle.command_line.specs.CommandLine.{AreBare, IsBareReplay, IsPlainOfInput, MayAskPlainly, are_plain, ask_plainly, is_off, is_plain_replay, usual_style};
ghost use Rattle.command_line.specs.declared.words.ReplayForm.TheVariants.{Plain};

use crate::arguments::{
    BLESS, CALL, COLUMNS, DETAILS, ENDS, EVENTS, EXPLAIN, FILE, HTML, JSON, LIMIT, MODEL, NAMES,
    NO_REDUCTION, OVER_GATES, PATIENCE, RAW, REFUSAL, SAVE, SCHEDULES, command,
};
use clap::error::ErrorKind;
use clap::{ArgMatches, Error};
use exit_status::Printable;
use std::alloc::{AllocError, Global};
use std::fmt::Display;
use std::io::Write;

/// Why names can't be asked for.
const WHOSE: &str = "the argument '--names' takes 'schedule' or 'kernel'";

/// Why schedules can't be saved: a variable of the shell may have had no value.
const NO_FOLDER: &str = "the argument '--save' needs the name of a folder";

/// How a replay and a list of outcomes are asked for.
const REPLAY_USAGE: &str = "replay [OPTIONS] [FILE]";

const OUTCOMES_USAGE: &str = "outcomes [OPTIONS] [FILE]";

/// How many states a race or a history may have, where nothing else is asked for.
const STATES: u32 = 10_000_000;

/// The numbers of a run.
#[derive(Clone, Copy)]
pub struct Numbers {
    pub tasks: u8,
    pub processors: u8,
    pub rounds: u32,
    pub freezes: u32,
    /// How often a freeze looks again before it gives up; None if it waits as long as it takes.
    pub patience: Option<u32>,
}

/// What is printed of a run.
#[derive(Clone, Copy)]
pub enum RunReport {
    /// What its tasks did, in a few lines.
    Totals,
    /// What its tasks did, in a few lines, and then what they met on their way.
    Details,
}

/// What is printed of a replay.
#[derive(Clone, Copy)]
pub enum ReplayForm {
    /// What its lines ask for.
    Plain,
    /// What its lines ask for, with the events of each `run`.
    Events,
    /// The events in a column for each task.
    Columns,
    /// A line of JSON for each beginning, step, answer and listing.
    Json,
    /// A page with a picture.
    Html,
}

/// How words and their values are printed in the forms that show steps.
#[derive(Clone, Copy)]
pub struct Style {
    /// Whether words have the names of the kernel.
    pub kernel_names: bool,
    /// Whether values are numbers.
    pub raw: bool,
}

/// How a schedule is replayed.
#[derive(Clone, Copy)]
pub struct Replay<'a> {
    /// The file that has it; standard input, where none is named.
    pub file: Option<&'a str>,
    pub form: ReplayForm,
    pub style: Style,
    pub over_gates: bool,
    pub explain: bool,
}

/// Which refusals are to be explained: all of a call, if no refusal is named; an index of them, if no call is.
#[derive(Clone, Copy)]
pub struct Explain<'a> {
    pub call: Option<&'a str>,
    pub refusal: Option<&'a str>,
}

/// In which form a schedule of each outcome is printed, if it is.
#[derive(Clone, Copy)]
pub enum ScheduleForm {
    Untold,
    /// In lines that a replay takes.
    Lines,
    /// In a column for each task.
    Columns,
}

/// In which form the outcomes of a race are printed.
#[derive(Clone, Copy)]
pub enum OutcomeForm {
    /// A line for each.
    Text,
    /// A line of JSON for each.
    Json,
    /// A page with a picture for each.
    Html,
}

/// How the outcomes of a race are printed.
#[derive(Clone, Copy)]
pub struct Outcomes<'a> {
    /// The file that has it; standard input, where none is named.
    pub file: Option<&'a str>,
    pub form: OutcomeForm,
    pub style: Style,
    pub schedules: ScheduleForm,
    /// Whether the final model is printed.
    pub model: bool,
    /// Whether outcomes with other final models are told apart.
    pub ends: bool,
    /// The folder in which a schedule of each is written to a file.
    pub save: Option<&'a str>,
    /// How many states are searched at most.
    pub limit: u32,
    /// Whether states that are not needed for the outcomes may be left out.
    pub reduction: bool,
}

impl Outcomes<'_> {
    /// Whether something is printed that may name words of the gates: more than a line for each outcome.
    fn names_words(&self) -> bool {
        self.save.is_some()
            || !matches!(
                (self.form, self.schedules),
                (OutcomeForm::Text, ScheduleForm::Untold)
            )
    }
}

/// How a history is validated.
#[derive(Clone, Copy)]
pub struct Validation<'a> {
    /// The file that has it; standard input, where none is named.
    pub file: Option<&'a str>,
    /// How many states are searched at most.
    pub limit: u32,
}

/// What the words of a command line ask for.
#[derive(Drop)]
pub enum ProgramRequest<'a> {
    /// A replay of a schedule.
    Replay(Replay<'a>),
    /// To replay the schedules of these files, and to compare what they print with what they say of it; that of standard input, where none
    /// is named.
    Check(Vec<&'a str>),
    /// To write what the schedules of these files print into them, in the place of what they say of it.
    Bless(Vec<&'a str>),
    /// An explanation of refusals.
    Explain(Explain<'a>),
    /// All outcomes of a race.
    Outcomes(Outcomes<'a>),
    /// Whether some execution has a history.
    Validate(Validation<'a>),
    /// A run in threads.
    Run(Numbers, RunReport),
    /// The version, which is this text.
    Told(String),
    /// Nothing: they have a fault, or wish for help.
    Misused,
}

/// What the words ask for. A fault of theirs, and the help that they wish for, is printed on the writer, and where it can't be, they ask for
/// nothing all the same.
///
/// # Errors
///
/// `AllocError` where there was no memory to read them; then nothing is printed.
pub fn read_words<'a, E: Write>(
    alloc: Global,
    words: &'a [String],
    errors: &mut E,
) -> Result<ProgramRequest<'a>, AllocError>
    ensures plain { ask_plainly (map string_bytes words.entry.now) ≡ true → IfOk result IsPlainOfInput }
    ensures only { IfOk result (λ asked. IsPlainOfInput asked → MayAskPlainly (map string_bytes words.entry.now)) }
{
    let command = command(alloc)?;
    match command.try_get_matches_from(words) {
        Ok(matches) => request_of(alloc, &matches, errors),
        Err(error) => answer_of(alloc, &error, errors),
    }
}

/// What a command line asks for that the parser has an answer to itself: the version; else nothing, and the fault, or the help that is wished
/// for, is printed.
fn answer_of<'a, E: Write>(
    alloc: Global,
    error: &Error,
    errors: &mut E,
) -> Result<ProgramRequest<'a>, AllocError>
    ensures memory { kind_of error.now ≡ OutOfMemory → IfOk result (λ asked. ⊥) }
    ensures nothing { IfOk result (λ asked. ¬ IsPlainOfInput asked) }
{
    match error.kind() {
        ErrorKind::OutOfMemory => Err(AllocError),
        ErrorKind::DisplayVersion => Ok(ProgramRequest::Told(format!(in alloc; "{error}")?)),
        _ => {
            // It quotes words of the command line.
            for line in format!(in alloc; "{error}")?.lines() {
                let _ = writeln!(errors, "{}", Printable(line));
            }
            Ok(ProgramRequest::Misused)
        }
    }
}

/// What a command line asks for that was understood.
fn request_of<'a, E: Write>(
    alloc: Global,
    matches: &ArgMatches<'a>,
    errors: &mut E,
) -> Result<ProgramRequest<'a>, AllocError>
    ensures plain { is_plain_replay (subcommand_rows_of matches.now) ≡ true → IfOk result IsPlainOfInput }
    ensures only { IfOk result (λ asked. IsPlainOfInput asked → IsBareReplay (subcommand_rows_of matches.now)) }
{
    if let Some(replay) = matches.subcommand_matches("replay") {
        return Ok(replay_of(replay, errors));
    }
    if let Some(check) = matches.subcommand_matches("check") {
        return check_of(alloc, check, errors);
    }
    if let Some(explain) = matches.subcommand_matches("explain") {
        return Ok(ProgramRequest::Explain(Explain {
            call: explain.get_str(CALL),
            refusal: explain.get_str(REFUSAL),
        }));
    }
    if let Some(outcomes) = matches.subcommand_matches("outcomes") {
        return Ok(outcomes_asked(outcomes, errors));
    }
    if let Some(validate) = matches.subcommand_matches("validate") {
        return Ok(ProgramRequest::Validate(Validation {
            file: validate.get_str(FILE),
            limit: validate.get_one(LIMIT).unwrap_or(STATES),
        }));
    }
    if let Some(run) = matches.subcommand_matches("run") {
        return Ok(run_of(run));
    }
    Ok(ProgramRequest::Misused)
}

/// What `run` asks for, of which the parser has seen to it that each number that is needed is there.
fn run_of<'a>(run: &ArgMatches<'_>) -> ProgramRequest<'a>
    ensures { ¬ IsPlainOfInput result }
{
    let tells = if run.get_flag(DETAILS) {
        RunReport::Details
    } else {
        RunReport::Totals
    };
    match (
        run.get_one("tasks"),
        run.get_one("cpus"),
        run.get_one("rounds"),
        run.get_one("freezes"),
    ) {
        (Some(tasks), Some(processors), Some(rounds), Some(freezes)) => {
            let numbers = Numbers {
                tasks,
                processors,
                rounds,
                freezes,
                patience: run.get_one(PATIENCE),
            };
            ProgramRequest::Run(numbers, tells)
        }
        _ => ProgramRequest::Misused,
    }
}

/// What `replay` asks for. That of its forms there may be one is told here, since the parser's contract speaks of no argument that excludes
/// another.
fn replay_of<'a, E: Write>(replay: &ArgMatches<'a>, errors: &mut E) -> ProgramRequest<'a>
    ensures plain { are_plain (rows_of (found_of replay.now)) ≡ true → IsPlainOfInput result }
    ensures only { IsPlainOfInput result → AreBare (rows_of (found_of replay.now)) }
{
    let Some(form) = form_of(replay) else {
        let (one, other) = first_two(replay, &[EVENTS, COLUMNS, JSON, HTML]);
        return report_conflict(one, other, REPLAY_USAGE, errors);
    };
    let Some(style) = style_of(replay) else {
        return report_misuse(WHOSE, REPLAY_USAGE, errors);
    };
    if matches!(form, ReplayForm::Plain) && (style.raw || style.kernel_names) {
        let why =
            "the arguments '--raw' and '--names' need '--events', '--columns', '--json' or '--html'";
        return report_misuse(why, REPLAY_USAGE, errors);
    }
    ProgramRequest::Replay(Replay {
        file: replay.get_str(FILE),
        form,
        style,
        over_gates: is_on(replay, OVER_GATES),
        explain: is_on(replay, EXPLAIN),
    })
}

/// How words and their values are to be printed; None where nobody's names are asked for.
fn style_of(matches: &ArgMatches<'_>) -> Option<Style>
    ensures { let rows = rows_of (found_of matches.now) in first_of (codes "names") rows ≡ None → is_off rows (codes "raw") ≡ true →
        result ≡ Some usual_style }
{
    let kernel_names = has_kernel_names(matches)?;
    Some(Style {
        kernel_names,
        raw: is_on(matches, RAW),
    })
}

/// Whether words are to have the names of the kernel; None where nobody's are asked for.
fn has_kernel_names(matches: &ArgMatches<'_>) -> Option<bool>
    ensures { first_of (codes "names") (rows_of (found_of matches.now)) ≡ None → result ≡ Some false }
{
    match matches.get_str(NAMES) {
        None => Some(false),
        Some(whose) => names_of(whose),
    }
}

/// Whether these are the names of the kernel; None where they are nobody's.
fn names_of(whose: &str) -> Option<bool> {
    match whose {
        "schedule" => Some(false),
        "kernel" => Some(true),
        _ => None,
    }
}

/// Returns the first two of these flags that are given.
fn first_two(matches: &ArgMatches<'_>, flags: &[&'static str]) -> (&'static str, &'static str) {
    let mut given = [""; 2];
    let mut count = 0;
    for flag in flags {
        if count < 2 && matches.get_flag(flag) {
            given[count] = *flag;
            count += 1;
        }
    }
    (given[0], given[1])
}

/// Reports that two flags can't be used together.
fn report_conflict<'a, E: Write>(
    one: &str,
    other: &str,
    usage: &str,
    errors: &mut E,
) -> ProgramRequest<'a>
    ensures { ¬ IsPlainOfInput result }
{
    let why = format_args!("the argument '--{one}' cannot be used with '--{other}'");
    report_misuse(why, usage, errors)
}

/// Reports a fault that the parser doesn't know, as it reports its own.
fn report_misuse<'a, D: Display + Drop, E: Write>(
    why: D,
    usage: &str,
    errors: &mut E,
) -> ProgramRequest<'a>
    ensures { ¬ IsPlainOfInput result }
{
    let _ = writeln!(
        errors,
        "error: {why}\n\nUsage: mntgate {usage}\n\nFor more information, try '--help'."
    );
    ProgramRequest::Misused
}

/// What `check` asks for. Standard input can't be written.
fn check_of<'a, E: Write>(
    alloc: Global,
    check: &ArgMatches<'a>,
    errors: &mut E,
) -> Result<ProgramRequest<'a>, AllocError>
    ensures { IfOk result (λ asked. ¬ IsPlainOfInput asked) }
{
    let files = files_of(alloc, check)?;
    if !check.get_flag(BLESS) {
        return Ok(ProgramRequest::Check(files));
    }
    if files.is_empty() || files.contains(&"-") {
        let why = "the argument '--bless' needs files: standard input can't be written";
        return Ok(report_misuse(why, "check [OPTIONS] [FILE]...", errors));
    }
    Ok(ProgramRequest::Bless(files))
}

/// What is to be printed of a replay; None where more than one of its flags is given.
fn form_of(replay: &ArgMatches<'_>) -> Option<ReplayForm>
    ensures plain { let rows = rows_of (found_of replay.now) in is_off rows (codes "events") ≡ true → is_off rows (codes "columns") ≡ true →
        is_off rows (codes "json") ≡ true → is_off rows (codes "html") ≡ true → result ≡ Some Plain }
    ensures events { result ≡ Some Plain → ¬ (one_of (codes "events") (rows_of (found_of replay.now)) ≡ Some (codes "true")) }
    ensures columns { result ≡ Some Plain → ¬ (one_of (codes "columns") (rows_of (found_of replay.now)) ≡ Some (codes "true")) }
    ensures json { result ≡ Some Plain → ¬ (one_of (codes "json") (rows_of (found_of replay.now)) ≡ Some (codes "true")) }
    ensures html { result ≡ Some Plain → ¬ (one_of (codes "html") (rows_of (found_of replay.now)) ≡ Some (codes "true")) }
{
    match (
        is_on(replay, EVENTS),
        is_on(replay, COLUMNS),
        is_on(replay, JSON),
        is_on(replay, HTML),
    ) {
        (false, false, false, false) => Some(ReplayForm::Plain),
        (true, false, false, false) => Some(ReplayForm::Events),
        (false, true, false, false) => Some(ReplayForm::Columns),
        (false, false, true, false) => Some(ReplayForm::Json),
        (false, false, false, true) => Some(ReplayForm::Html),
        _ => None,
    }
}

/// Whether a flag is given.
fn is_on(matches: &ArgMatches<'_>, name: &str) -> bool
    ensures off { is_off (rows_of (found_of matches.now)) name.now ≡ true → result ≡ false }
    ensures on { one_of name.now (rows_of (found_of matches.now)) ≡ Some (codes "true") → result ≡ true }
{
    matches.get_flag(name)
}

/// What `outcomes` asks for.
fn outcomes_asked<'a, E: Write>(outcomes: &ArgMatches<'a>, errors: &mut E) -> ProgramRequest<'a>
    ensures { ¬ IsPlainOfInput result }
{
    let Some(form) = listing_of(outcomes) else {
        let (one, other) = first_two(outcomes, &[JSON, HTML, COLUMNS]);
        return report_conflict(one, other, OUTCOMES_USAGE, errors);
    };
    let Some(style) = style_of(outcomes) else {
        return report_misuse(WHOSE, OUTCOMES_USAGE, errors);
    };
    let asked = outcomes_of(outcomes, form, style);
    if asked.save == Some("") {
        return report_misuse(NO_FOLDER, OUTCOMES_USAGE, errors);
    }
    if (style.raw || style.kernel_names) && !asked.names_words() {
        let why =
            "the arguments '--raw' and '--names' need '--schedules', '--columns', '--json', '--html' or '--save'";
        return report_misuse(why, OUTCOMES_USAGE, errors);
    }
    ProgramRequest::Outcomes(asked)
}

/// The form of outcomes; None where more than one is asked for.
fn listing_of(outcomes: &ArgMatches<'_>) -> Option<OutcomeForm> {
    match (
        outcomes.get_flag(JSON),
        outcomes.get_flag(HTML),
        outcomes.get_flag(COLUMNS),
    ) {
        (false, false, _) => Some(OutcomeForm::Text),
        (true, false, false) => Some(OutcomeForm::Json),
        (false, true, false) => Some(OutcomeForm::Html),
        _ => None,
    }
}

/// How outcomes are to be printed, in this form.
fn outcomes_of<'a>(outcomes: &ArgMatches<'a>, form: OutcomeForm, style: Style) -> Outcomes<'a> {
    let schedules = if outcomes.get_flag(COLUMNS) {
        ScheduleForm::Columns
    } else if outcomes.get_flag(SCHEDULES) {
        ScheduleForm::Lines
    } else {
        ScheduleForm::Untold
    };
    Outcomes {
        file: outcomes.get_str(FILE),
        form,
        style,
        schedules,
        model: outcomes.get_flag(MODEL),
        ends: outcomes.get_flag(ENDS),
        save: outcomes.get_str(SAVE),
        limit: outcomes.get_one(LIMIT).unwrap_or(STATES),
        reduction: !outcomes.get_flag(NO_REDUCTION),
    }
}

/// The files that are named.
fn files_of<'a>(alloc: Global, check: &ArgMatches<'a>) -> Result<Vec<&'a str>, AllocError> {
    match check.get_strs(FILE) {
        Some(names) => names.to_vec(alloc),
        None => Ok(Vec::new(alloc)),
    }
}
