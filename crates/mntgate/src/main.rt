//! The program: write gates of a mounted file system, driven from the command line.
#![tactic(auto)]

pub mod dispatch;
pub mod outcomes;
mod progress;
pub mod unlisted;
pub mod validation;

use crate::dispatch::run;
use access_model::GateError;
use exit_status::{ProgramEnding, report_refusal, report_unreadable};
use program_replay::Terminal;
use std::alloc::Global;
use std::io::{IsTerminal, Stderr};
use std::process::ExitCode;

fn main(rt: HostRuntime) -> ExitCode {
    let alloc = rt.alloc();
    let (mut reader, mut writer, mut errors) = (rt.stdin(), rt.stdout(), rt.stderr());
    let ending = match words_of(&rt, alloc, &mut errors) {
        Ok(words) => {
            let person = Terminal {
                watches: if errors.is_terminal() {
                    Some(rt.stderr())
                } else {
                    None
                },
                types: reader.is_terminal(),
            };
            let ended = run(
                &rt,
                alloc,
                words.as_slice(),
                &mut reader,
                &mut writer,
                &mut errors,
                person,
            );
            ended.unwrap_or_else(|_| report_refusal(GateError::NoMemory, &mut errors))
        }
        Err(ending) => ending,
    };
    ExitCode::from(ending.status())
}

/// Returns the words of the command line.
///
/// # Errors
///
/// How the program ends if a word is no text, or there is no memory for them, which is printed.
fn words_of(
    rt: &HostRuntime,
    alloc: Global,
    errors: &mut Stderr,
) -> Result<Vec<String>, ProgramEnding> {
    let words = std::env::args(rt).map_err(|error| report_unreadable(&error, errors))?;
    words
        .collect(alloc)
        .map_err(|_| report_refusal(GateError::NoMemory, errors))
}
