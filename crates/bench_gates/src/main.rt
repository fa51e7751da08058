//! The workbench of the gates: by the words of its command line it measures them, for the scripts of `bench`, or runs a backup beside a writer,
//! which docs/library.md explains. The words are few, so a `match` reads them.
#![tactic(auto)]

mod at_gates;
mod at_runs;
mod measurements;

use anyhow::Result;
use example_backup::MOUNT;
use example_backup::run::run;
use measurements::Measurement;
use std::alloc::Global;
use std::process::ExitCode;
use std::rt::Clock;
use std::sync::Wait;
use std::thread::Threads;
use vfs_gates::Gate;

/// What the program can be asked for.
const USAGE: &str = "\
Usage: bench_gates measure <WHAT> <SIZE> <COUNT>
       bench_gates backup | --help

measure  Measures the gates, and prints nanoseconds
         WHAT   mount, level or write-access: pairs of a taken and a returned access; freeze or freeze-and-callbacks: freezes, each
                with its thaw; remounts: remounts to read-only, each with one back; snapshot: snapshots; file: a file's opens, each with
                its close; create-and-remove, grow, moves (there and back) and fault-and-flush: calls at the tree; wait: starts behind a
                freeze; run: runs
         SIZE   Threads of the pairs, or tasks and processors, and nodes of a snapshot: 1 to 64, and at least 3 for runs. Of a wait,
                the task that has frozen and those that wait
         COUNT  How many of them: of pairs, for each thread; of a wait, how many milliseconds
backup   Runs a backup beside a writer, and prints what both have done";

/// What the words of a command line ask for.
enum WorkbenchRequest {
    Measure(Measurement),
    Backup,
    Help,
}

fn main(rt: HostRuntime) -> Result<ExitCode> {
    let alloc = rt.alloc();
    let words: Vec<String> = std::env::args(&rt)?.collect(alloc)?;
    let asked = read_words(words.as_slice());
    // Before any way out, so that it is dropped in one place.
    drop(words);
    let Some(asked) = asked else {
        return refuse(&rt);
    };
    answer(&rt, alloc, asked)?;
    Ok(ExitCode::SUCCESS)
}

/// What these words ask for, the first of which is the program's name.
fn read_words(words: &[String]) -> Option<WorkbenchRequest> {
    let [_program, command, others @ ..] = words else {
        return None;
    };
    match (command.as_str(), others) {
        ("measure", [what, size, count]) => {
            let measurement = Measurement::of(what.as_str(), size.as_str(), count.as_str())?;
            Some(WorkbenchRequest::Measure(measurement))
        }
        ("backup", []) => Some(WorkbenchRequest::Backup),
        ("--help", []) => Some(WorkbenchRequest::Help),
        _ => None,
    }
}

/// Does what was asked for.
fn answer<R: Threads + Wait + Clock + Print + Sync>(
    rt: &R,
    alloc: Global,
    asked: WorkbenchRequest,
) -> Result<()> {
    match asked {
        WorkbenchRequest::Measure(measurement) => print_time(rt, alloc, measurement),
        WorkbenchRequest::Backup => back_up(rt, alloc),
        WorkbenchRequest::Help => Ok(rt.println(USAGE)?),
    }
}

/// Says what can be asked for, where the words ask for nothing of that.
fn refuse<R: Eprint>(rt: &R) -> Result<ExitCode> {
    rt.eprintln(USAGE)?;
    Ok(ExitCode::from(2))
}

/// Measures, and prints how long it took.
fn print_time<R: Threads + Wait + Clock + Print + Sync>(
    rt: &R,
    alloc: Global,
    measurement: Measurement,
) -> Result<()> {
    let took = measurement.measure(rt, alloc)?;
    println!(rt; "{}", took.as_nanos())?;
    Ok(())
}

/// Lets the writer and the backup work, and prints what they tell and what is left at their mount: the same whatever the schedule.
fn back_up<R: Threads + Wait + Print + Sync>(rt: &R, alloc: Global) -> Result<()> {
    let (told, closed) = run(rt, alloc)?;
    let left = closed.gate_sum(Gate::Mount(MOUNT));
    drop(closed);
    println!(rt; "{told}\naccesses left: {left:?}")?;
    Ok(())
}
