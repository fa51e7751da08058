//! Lines: what one task does, and what is to be seen of it.

ghost use Rattle.vfs_gates.specs.TaskStates.{IsFrom};

use super::cases::{cut, end_name};
use super::decisions::{back_up, shut, shut_and_see, take};
use super::fixtures::{Fixture, NODES};
use super::pairs::{copies_inside, writes_inside};
use super::tasks::call;
use super::thread_runs::ThreadRun;
use schedule_lines::Output;
use schedule_lines::numbers::number_of;
use schedule_text::{Line, Request, TaskCommand, parse};
use std::sync::Wait;
use std::thread;
use vfs_gates::{GateError, Gates, Holder, Op, Progress, Task, WordName};

/// How often a call is made again at most.
pub const MOST: u32 = 1_000_000;

/// The operation of a line of a schedule of five tasks, and whose it is.
pub fn call_of(line: &str) -> Option<(u8, Op)> {
    match parse(line.as_bytes(), Some(5)) {
        Ok(
            Line::Request(
                Request::Task {
                    task,
                    command: TaskCommand::Begin(op),
                },
            ),
        ) => Some((task, op)),
        _ => None,
    }
}

/// Makes the call of a line until it needn't be made again.
pub fn make_call<R: Wait>(
    task: &mut Task,
    rt: &R,
    gates: &Gates,
    turn: &mut ThreadRun<'_>,
    line: &'static str,
)
    requires { IsFrom task.old gates.now }
    ensures { IsFrom task.new gates.now }
{
    if let Some(op) = turn.reads(line) {
        for _time in 0..=MOST {
            let answer = if turn.begins {
                task.begin(op)
            } else {
                call(task, rt, gates, op, turn)
            };
            if !turn.is_again(line, op, answer, task.tree()) {
                break;
            }
            thread::yield_now();
        }
    }
}

/// Prints how a call ended, with the code of a hook.
fn print_answer(said: &mut Output, answer: Result<(), GateError>) {
    said.text(end_name(answer).as_bytes());
    if let Err(GateError::Hook(code)) = answer {
        said.numbered(b" ", u64::from(code));
    }
    said.text(b"\n");
}

/// Prints whether something was done.
fn print_done(said: &mut Output, is_done: bool) {
    said.line(if is_done { b"done" } else { b"otherwise" });
}

/// Prints the word that was in the way of a remount, `done` if none was, or the name of another refusal.
fn print_seen(said: &mut Output, seen: Result<Option<WordName>, GateError>) {
    match seen {
        Ok(Some(word)) => {
            said.word_name(word);
            said.text(b"\n");
        }
        Ok(None) => print_answer(said, Ok(())),
        Err(refusal) => print_answer(said, Err(refusal)),
    }
}

/// Does a step, in which a hook that nobody asks fails. Prints the word, what the step finds in it, and how the operation stands then,
/// unless it goes on.
fn print_step(task: &mut Task, gates: &Gates, said: &mut Output)
    requires { IsFrom task.old gates.now }
    ensures { IsFrom task.new gates.now }
{
    let step = task.step(gates, Err(4));
    if let Some(event) = step.event {
        said.word_line(event.word, event.found);
    }
    match step.progress {
        Progress::Going => {}
        Progress::Waiting => said.waiting_line(task.number()),
        Progress::Idle => said.idle_line(task.number()),
        Progress::Done(answer) => said.answer_line(task.number(), answer, 0),
    }
}

/// Prints how a task stands between two calls or steps: how often its last operation came to a wait, how many accesses it holds at the
/// first mount, whether it is inside level 1, and whether it has the first file open; and whether it is idle.
fn print_stand(task: &Task, said: &mut Output) {
    if task.waited() > 0 {
        said.numbered(b"waited ", task.waited());
        said.text(b"\n");
    }
    if task.holds_mount(0) > 0 {
        said.held_mount_line(task.number(), 0, task.holds_mount(0));
    }
    if task.holds_level(1) {
        said.held_level_line(task.number(), 1);
    }
    if task.has_open(1) {
        said.open_file_line(task.number(), 1);
    }
    said.numbered(b"task ", u64::from(task.number()));
    said.line(if task.is_idle() { b" idle" } else { b" busy" });
}

/// Prints the nodes of a task's last snapshot, and that it isn't sound and clean where it isn't.
fn print_tree(task: &Task, said: &mut Output) {
    let Some(tree) = task.tree() else {
        said.line(b"none");
        return;
    };
    for number in 0..NODES {
        if let Some(node) = tree.node(number) {
            said.node_line(number, node);
        }
    }
    if !tree.is_sound() || !tree.is_clean() {
        said.line(b"not sound, or dirty");
    }
}

/// Whether just these parts were printed, a line for each.
pub fn is_printed(said: &Output, parts: &str) -> bool {
    let mut rest = said.bytes.as_slice();
    let mut is_so = said.is_whole;
    for part in parts.split(", ") {
        match rest.strip_prefix(part.as_bytes()) {
            Some([b'\n', after @ ..]) => rest = after,
            _ => is_so = false,
        }
    }
    is_so && rest.is_empty()
}

/// Does what isn't a call of the language of schedules, and prints what is to be seen of it.
fn print_act<R: Wait>(
    task: &mut Task,
    rt: &R,
    gates: &Gates,
    turn: &mut ThreadRun<'_>,
    act: TaskAct,
    said: &mut Output,
)
    requires { IsFrom task.old gates.now }
    ensures { IsFrom task.new gates.now }
{
    match act {
        TaskAct::Step => print_step(task, gates, said),
        TaskAct::Stand => print_stand(task, said),
        TaskAct::Tree => print_tree(task, said),
        TaskAct::Shut => print_answer(said, shut(rt, gates, task, turn, 3)),
        TaskAct::BackUp => print_answer(said, back_up(rt, gates, task, turn)),
        TaskAct::Take => print_answer(said, take(rt, gates, task, turn, 2)),
        TaskAct::WriteInside => print_done(said, writes_inside(task, rt, gates)),
        TaskAct::CopyInside => print_done(said, copies_inside(task, rt, gates)),
        TaskAct::See => print_seen(said, shut_and_see(rt, gates, task, turn)),
        TaskAct::TryFreeze => {
            print_answer(said, task.try_freeze(rt, gates, Holder::User, turn));
        }
    }
}

/// What a line has a task do that is no call of the language of schedules.
#[derive(Clone, Copy)]
enum TaskAct {
    /// What docs/refusals.md advises, as `decisions` has it: a remount with three tries, one that says what was in the way, a backup, and a
    /// snapshot with two tries.
    Shut,
    See,
    BackUp,
    Take,
    /// A freeze that waits for nobody.
    TryFreeze,
    /// Calls with a closure, as `pairs` has them.
    WriteInside,
    CopyInside,
    /// A step; how the task stands; the tree of its last snapshot.
    Step,
    Stand,
    Tree,
}

impl TaskAct {
    /// By the word behind the task's number; a call, if it is none of these.
    fn of(line: &'static str) -> Option<TaskAct> {
        let (front, _) = cut(line, ": ");
        let (_, word) = cut(front, " ");
        match word {
            "shut" => Some(TaskAct::Shut),
            "shut_and_see" => Some(TaskAct::See),
            "back_up" => Some(TaskAct::BackUp),
            "take" => Some(TaskAct::Take),
            "try_freeze" => Some(TaskAct::TryFreeze),
            "writes_inside" => Some(TaskAct::WriteInside),
            "copies_inside" => Some(TaskAct::CopyInside),
            "step" => Some(TaskAct::Step),
            "stands" => Some(TaskAct::Stand),
            "tree" => Some(TaskAct::Tree),
            _ => None,
        }
    }
}

/// Does what a line says of a task. Whether it ends as the line says; a call notes that by itself.
pub fn does<R: Wait>(
    task: &mut Task,
    rt: &R,
    gates: &Gates,
    turn: &mut ThreadRun<'_>,
    line: &'static str,
) -> bool
    requires { IsFrom task.old gates.now }
    ensures { IsFrom task.new gates.now }
{
    match TaskAct::of(line) {
        None => {
            make_call(task, rt, gates, turn, line);
            true
        }
        Some(act) => {
            let mut said = Output::new(turn.scene.alloc);
            print_act(task, rt, gates, turn, act, &mut said);
            let (_, ends) = cut(line, ": ");
            is_printed(&said, ends)
        }
    }
}

/// What a line begins with; `#` where it is empty.
pub fn first_byte(line: &str) -> u8 {
    line.bytes().next().unwrap_or(b'#')
}

/// How often the task of a number goes through its lines; none where the case doesn't say that.
pub fn rounds_of(scene: &Fixture, number: u8) -> u32 {
    let (_, rest) = cut(scene.case, "\nrounds ");
    let (words, _) = cut(rest, "\n");
    let mut words = words.split(' ');
    for _other in 1..number {
        let _ = words.next();
    }
    match number_of(words.next().unwrap_or("").as_bytes()) {
        Some(rounds) => rounds,
        None => {
            scene.note_wrong(rest);
            0
        }
    }
}

/// Makes the calls of a task's own lines, which stand in.
fn make_calls<R: Wait>(task: &mut Task, rt: &R, gates: &Gates, turn: &mut ThreadRun<'_>)
    requires { IsFrom task.old gates.now }
    ensures { IsFrom task.new gates.now }
{
    let digit = b'0'.wrapping_add(task.number());
    for line in turn.scene.case.lines() {
        let (_, call) = cut(line, "    ");
        if first_byte(call) == digit {
            make_call(task, rt, gates, turn, call);
        }
    }
}

/// Goes through its own lines so often, until something is wrong.
pub fn work<R: Wait>(task: &mut Task, rt: &R, gates: &Gates, scene: &Fixture, rounds: u32)
    requires { IsFrom task.old gates.now }
    ensures { IsFrom task.new gates.now }
{
    let mut turn = ThreadRun::new(scene);
    for _round in 0..rounds {
        if scene.wrong.get().is_none() {
            turn.begin_round();
            make_calls(task, rt, gates, &mut turn);
            thread::yield_now();
        }
    }
}
