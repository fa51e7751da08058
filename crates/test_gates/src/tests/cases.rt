//! Cases: what tasks do at gates of their own, in turn and in threads, and what they leave. A case is a text, as
//!
//! ```text
//! config 2 2 1 2 8: agrees
//! split: done
//! 1 trywant 0 0: done
//! 0 trychange 0 ro: Busy
//! close: Order
//! 1 drop 0 1: done
//! join: done
//! close: done
//! umount 0
//! ```
//!
//! Its first line is that of a schedule, and behind a colon and a blank what the file system answers and what is looked at after each call
//! (`Fixture`). Each further line does something, and says how that ends:
//!
//! - `0 want 0 0: done` is a call of the first or the second task, as a schedule has it. It ends so, or by the name of its refusal;
//!   `ThreadRun::goes_on` says what may stand behind that. Node 100 is the file that was made last, and node 200 another one in each round.
//! - `0 want 0 0: begun` only begins the operation, which goes on by steps.
//! - `0 step: sb 0` and the like is what a schedule hasn't. `TaskAct` lists it, and the end is what is printed, a part for each line.
//! - `split: done` splits the second task off the first one, `join: done` joins it, and `lose: done` drops it. `split 63: done` loses all but the
//!   last.
//! - `fail sync 16`: the next time that it is asked this, the file system fails with this code.
//! - `both 1: done`: the first and the second task at once, each in a thread, make the calls of their own lines so often. These lines stand in.
//! - `rounds 500 20 1`: the first task splits one off for each number. At once, in threads, each makes the calls of its own lines so often.
//!   These lines stand in. Then the first task joins all but task 1, which is the second one from then on. A case has one such line at most.
//! - `close: done` closes the gates, and what follows is what words hold then. Or it is refused, and all come back as they were. Then more lines
//!   follow, to a second `close`.
//! - A line that begins with `#` is skipped.

ghost use Rattle.std.specs.Prelude.{◌≡◌, All, IfSome, IfErr};
ghost use Rattle.vfs_gates.specs.TaskStates.{IsFrom};

use super::fixtures::Fixture;
use super::lines::{does, first_byte, is_printed, rounds_of, work};
use super::thread_runs::ThreadRun;
use schedule_lines::Output;
use schedule_lines::numbers::number_of;
use schedule_text::{Line, parse};
use std::alloc::Global;
use std::sync::Wait;
use std::test::Fail;
use std::thread;
use std::thread::Threads;
use vfs_gates::{Closed, Gate, GateError, Gates, Task, WordName};

/// A text before and after the first of these marks; all of it, and nothing, where there is none.
pub fn cut(text: &'static str, mark: &str) -> (&'static str, &'static str) {
    text.split_once(mark).unwrap_or((text, ""))
}

/// How a line says how a call ended.
pub fn end_name(answer: Result<(), GateError>) -> &'static str {
    match answer {
        Ok(()) => "done",
        Err(refusal) => refusal.name(),
    }
}

/// The first task splits so many others off, of which the last one stays.
fn split(
    first: &mut Task,
    second: &mut Option<Task>,
    alloc: Global,
    gates: &Gates,
    count: u32,
) -> Result<(), GateError>
    requires first { IsFrom first.old gates.now }
    requires second { IfSome second.old (λ task. IsFrom task gates.now) }
    ensures first { IsFrom first.new gates.now }
    ensures second { IfSome second.new (λ task. IsFrom task gates.now) }
{
    let mut answer = Ok(());
    for _other in 0..count {
        match first.split(alloc, gates) {
            Ok(other) => *second = Some(other),
            Err(refusal) => answer = Err(refusal),
        }
    }
    answer
}

/// The first task joins the second one, which stays where that is refused.
fn join(first: &mut Task, second: &mut Option<Task>, gates: &Gates) -> Result<(), GateError>
    requires first { IsFrom first.old gates.now }
    requires second { IfSome second.old (λ task. IsFrom task gates.now) }
    ensures first { IsFrom first.new gates.now }
    ensures second { IfSome second.new (λ task. IsFrom task gates.now) }
{
    let Some(other) = second.take() else {
        return Err(GateError::Invalid);
    };
    match first.join(gates, other) {
        Ok(()) => Ok(()),
        Err((refusal, other)) => {
            *second = Some(other);
            Err(refusal)
        }
    }
}

/// Tasks do their parts, each in a thread of its own.
fn go_beside<R: Wait + Threads + Sync>(
    others: &mut Vec<Task>,
    rt: &R,
    gates: &Gates,
    scene: &Fixture,
)
    requires { All (λ task. IsFrom task gates.now) others.old.items }
    ensures { All (λ task. IsFrom task gates.now) others.new.items }
{
    thread::for_each_mut(
        rt,
        others.as_mut_slice(),
        4,
        &|_place: usize, task: &mut Task|
            requires { IsFrom task.now gates.now }
            ensures { IsFrom task.exit.now gates.entry.now }
        { work(task, rt, gates, scene, rounds_of(scene, task.number())) },
    );
}

/// The first and the second task do their parts so often, the second in a thread of its own.
fn go_both<R: Wait + Threads + Sync>(
    first: &mut Task,
    second: &mut Task,
    rt: &R,
    gates: &Gates,
    scene: &Fixture,
    rounds: u32,
)
    requires first { IsFrom first.old gates.now }
    requires second { IsFrom second.old gates.now }
    ensures first { IsFrom first.new gates.now }
    ensures second { IsFrom second.new gates.now }
{
    thread::join_mut(
        rt,
        &mut || work(second, rt, gates, scene, rounds),
        &mut || work(first, rt, gates, scene, rounds),
    );
}

/// The first task splits one more off, which isn't to be refused.
fn split_off(first: &mut Task, others: &mut Vec<Task>, gates: &Gates, scene: &Fixture)
    requires first { IsFrom first.old gates.now }
    requires others { All (λ task. IsFrom task gates.now) others.old.items }
    ensures first { IsFrom first.new gates.now }
    ensures others { All (λ task. IsFrom task gates.now) others.new.items }
{
    let is_split = match first.split(scene.alloc, gates) {
        Ok(other) => others.push(other).is_ok(),
        Err(_) => false,
    };
    scene.expect(is_split, "a task for each thread");
}

/// The first task joins the last one.
fn join_last(first: &mut Task, others: &mut Vec<Task>, gates: &Gates)
    requires first { IsFrom first.old gates.now }
    requires others { All (λ task. IsFrom task gates.now) others.old.items }
    ensures first { IsFrom first.new gates.now }
    ensures others { All (λ task. IsFrom task gates.now) others.new.items }
{
    let mut last = others.pop();
    let _ = join(first, &mut last, gates);
}

/// The first task joins all but one.
fn join_rest(first: &mut Task, others: &mut Vec<Task>, gates: &Gates)
    requires first { IsFrom first.old gates.now }
    requires others { All (λ task. IsFrom task gates.now) others.old.items }
    ensures first { IsFrom first.new gates.now }
    ensures others { All (λ task. IsFrom task gates.now) others.new.items }
{
    for _other in 1..others.len() {
        join_last(first, others, gates);
    }
}

/// The first task splits off one for each of these numbers, which do their parts at once, and joins all but the first of them, which it
/// returns.
fn go_at_once<R: Wait + Threads + Sync>(
    first: &mut Task,
    rt: &R,
    gates: &Gates,
    scene: &Fixture,
    rounds: &str,
) -> Option<Task>
    requires { IsFrom first.old gates.now }
    ensures first { IsFrom first.new gates.now }
    ensures last { IfSome result (λ task. IsFrom task gates.now) }
{
    let mut others = Vec::new(scene.alloc);
    for _part in rounds.split(' ') {
        split_off(first, &mut others, gates, scene);
    }
    go_beside(&mut others, rt, gates, scene);
    join_rest(first, &mut others, gates);
    others.pop()
}

/// Does what a line says that is of no one task. Whether it ends as the line says.
fn does_for_all<R: Wait + Threads + Sync>(
    first: &mut Task,
    second: &mut Option<Task>,
    rt: &R,
    gates: &Gates,
    turn: &mut ThreadRun<'_>,
    line: &'static str,
) -> bool
    requires first { IsFrom first.old gates.now }
    requires second { IfSome second.old (λ task. IsFrom task gates.now) }
    ensures first { IsFrom first.new gates.now }
    ensures second { IfSome second.new (λ task. IsFrom task gates.now) }
{
    let (front, ends) = cut(line, ": ");
    let (word, rest) = cut(front, " ");
    match word {
        "split" => {
            let count = number_of(rest.as_bytes()).unwrap_or(1);
            end_name(split(first, second, turn.scene.alloc, gates, count)) == ends
        }
        "join" => end_name(join(first, second, gates)) == ends,
        "lose" => second.take().is_some() && ends == "done",
        "fail" => {
            let was_asked = turn.fails.is_empty();
            turn.fails = rest;
            was_asked
        }
        "both" => match (second, number_of(rest.as_bytes())) {
            (Some(second), Some(rounds)) => {
                go_both(first, second, rt, gates, turn.scene, rounds);
                ends == "done"
            }
            _ => false,
        },
        "rounds" => {
            *second = go_at_once(first, rt, gates, turn.scene, rest);
            second.is_some()
        }
        _ => false,
    }
}

/// Does what lines say, one after the other.
fn go<R: Wait + Threads + Sync>(
    first: &mut Task,
    second: &mut Option<Task>,
    rt: &R,
    gates: &Gates,
    scene: &Fixture,
    lines: &'static str,
)
    requires first { IsFrom first.old gates.now }
    requires second { IfSome second.old (λ task. IsFrom task gates.now) }
    ensures first { IsFrom first.new gates.now }
    ensures second { IfSome second.new (λ task. IsFrom task gates.now) }
{
    let mut turn = ThreadRun::new(scene);
    for line in lines.lines() {
        let is_so = match first_byte(line) {
            b' ' | b'#' => true,
            b'0' => does(first, rt, gates, &mut turn, line),
            b'1' => match second {
                Some(second) => does(second, rt, gates, &mut turn, line),
                None => false,
            },
            _ => does_for_all(first, second, rt, gates, &mut turn, line),
        };
        scene.expect(is_so, line);
    }
    scene.expect(turn.fails.is_empty(), "a hook that is to fail is asked");
}

/// The words of which a case may say what they hold in the end.
const WORDS: [WordName; 9] = [
    WordName::Umount,
    WordName::Stage,
    WordName::Holders,
    WordName::SbFlags,
    WordName::Remount,
    WordName::Removed,
    WordName::Used,
    WordName::MountFlags(0),
    WordName::MountCount(0, 1),
];

/// Whether closed gates have a word that is printed so, with its value.
fn has_word(alloc: Global, closed: &Closed, line: &str) -> bool {
    let mut has = false;
    for name in WORDS {
        let mut said = Output::new(alloc);
        said.word_line(name, closed.word(name).unwrap_or(0));
        has = has || is_printed(&said, line);
    }
    has
}

/// Whether closed gates have left this, and count nobody.
fn has_left(alloc: Global, closed: &Closed, words: &str) -> bool {
    let mut is_so = closed.gate_sum(Gate::Mount(0)) == Some(0)
        && closed.gate_sum(Gate::Level(1)) == Some(0)
        && closed.gate_sum(Gate::Level(4)).is_none();
    for line in words.lines() {
        is_so = is_so && has_word(alloc, closed, line);
    }
    is_so
}

/// Closes the gates, as the rest of a case says: `done`, and what words hold then; or a refusal, and all come back as they were.
fn close(
    scene: &Fixture,
    gates: Gates,
    first: Task,
    rest: &'static str,
) -> Result<(), (Gates, Task)>
    requires { IsFrom first gates }
    ensures { IfErr result (λ kept. (kept.0 ≡ gates) × IsFrom kept.1 gates) }
{
    let (ends, words) = cut(rest, "\n");
    match gates.close(first) {
        Ok(closed) => {
            scene.expect(
                ends == "done" && has_left(scene.alloc, &closed, words),
                rest,
            );
            Ok(())
        }
        Err((refusal, gates, first)) => {
            scene.expect(ends == refusal.name(), rest);
            Err((gates, first))
        }
    }
}

/// Does what the lines of a case say, with a second `close` where the first one is refused.
fn play_at<R: Wait + Threads + Sync>(
    rt: &R,
    scene: &Fixture,
    gates: Gates,
    mut first: Task,
    lines: &'static str,
)
    requires { IsFrom first gates }
{
    let mut second = None;
    let (lines, rest) = cut(lines, "close: ");
    go(&mut first, &mut second, rt, &gates, scene, lines);
    if let Err((gates, mut first)) = close(scene, gates, first, rest) {
        let (_, rest) = cut(rest, "\n");
        let (lines, rest) = cut(rest, "close: ");
        go(&mut first, &mut second, rt, &gates, scene, lines);
        if close(scene, gates, first, rest).is_err() {
            scene.expect(rest == "Order\n", rest);
        }
    }
}

/// Plays a case at gates of its own. Returns the first line at which something is wrong.
fn play<R: Wait + Threads + Sync + Alloc<A = Global>>(
    rt: &R,
    case: &'static str,
) -> Option<&'static str> {
    let (line, lines) = cut(case, "\n");
    let (config, manner) = cut(line, ": ");
    let Ok(Line::Config(config)) = parse(config.as_bytes(), None) else {
        return Some(line);
    };
    let scene = Fixture::of(rt.alloc(), case, manner, config.nodes);
    match Gates::new(rt.alloc(), config) {
        Ok((gates, first)) => play_at(rt, &scene, gates, first, lines),
        Err(_) => scene.note_wrong(line),
    }
    scene.wrong.get().copied()
}

/// Plays cases, to the first one in which something is wrong.
pub fn plays<R: Wait + Threads + Sync + Alloc<A = Global>>(
    rt: &R,
    cases: &[&'static str],
) -> Result<(), Fail> {
    for case in cases {
        if let Some(line) = play(rt, *case) {
            return Err(Fail::new(line));
        }
    }
    Ok(())
}
