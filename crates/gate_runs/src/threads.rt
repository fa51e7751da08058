//! The threads of a run: started, and joined.

ghost use Rattle.std.specs.Prelude.{◌≡◌, ◌+◌, ◌-◌, ◌<◌, ◌≤◌, ◌⊎◌, [], Err, IfErr, IfOk, Ok, OnOk, length, vec_len};
ghost use Rattle.access_model.specs.declared.errors.GateError.TheVariants.{NoMemory};
ghost use Rattle.gate_runs.specs.Ends.{AllJoined};
ghost use Rattle.gate_runs.specs.declared.threads.Met.{Met as MetType};
ghost use Rattle.run_plans.specs.declared.counts.Remounts.{Remounts as RemountsType};
ghost use Rattle.run_plans.specs.declared.counts.Writes.{Writes as WritesType};
ghost use Rattle.gate_runs.specs.Homes.{ComesHome, HasBack, IsReady, NeverFroze, TaskShare, TookBack, with_met};
ghost use Rattle.gate_runs.specs.Parts.{AllWrote, Among, EachFrom, Remounted};
ghost use Rattle.gate_runs.specs.Counts.{remounts_of};
ghost use Rattle.gate_runs.specs.Observers.{was_held};
ghost use Rattle.gate_runs.specs.Refusals.{NotStarted, WriterRefused};
ghost use Rattle.vfs_gates.specs.Splitting.{Gives, HasBegun};
ghost use Rattle.vfs_gates.specs.TaskStates.{IsFrom, SeatedTask, own_view};
ghost use Rattle.run_plans.specs.Plans.{run_config};
ghost use Rattle.vfs_gates.specs.Held.{Rests};

use crate::workers::{back_up, create_files, remount, write};
use access_model::GateError;
use run_plans::{Copies, Details, FIRST_WRITER, Plan, Remounts, RunObserver, Writes};
use std::alloc::Global;
use std::sync::Wait;
use std::thread;
use std::thread::{Promise, PromisedHandle, Scope, Threads};
use vfs_gates::{Gates, Task};

/// The number of the task that remounts. Those from it on have threads of their own.
const REMOUNTER: u8 = 1;

/// What a task has met in all its rounds.
#[derive(Clone, Copy)]
enum Met {
    Remounter(Remounts),
    Writer(Writes),
}

/// A task whose thread has ended, and what it met, or why it was refused.
#[derive(Drop)]
struct Worked {
    task: Task,
    met: Result<Met, GateError>,
}

/// The promise of a thread: its task comes back to these gates, at rest, and has done all its rounds since it began, in which it met what it
/// tells, unless a call of it was refused so.
struct Home<'g, W> {
    gates: &'g Gates,
    plan: Plan,
    watch: &'g W,
    number: u8,
}

impl<'g, W> Drop for Home<'g, W> {
    fn drop(self) {
        let Home {
            gates: _,
            plan: _,
            watch: _,
            number: _,
        } = self;
    }
}

impl<'g, W: RunObserver> Promise<Worked> for Home<'g, W> {
    ghost kept_by = { λ home ended. ComesHome (W.held home.watch.now) home.gates.now home.plan home.number ended.task ended.met };
}

/// A thread that is to be joined.
type Worker<'g, W> = PromisedHandle<Worked, Home<'g, W>>;

/// Where the threads of a run are started.
struct Starter<'a, 's, E, R> {
    scope: &'a Scope<'s, E>,
    rt: &'s R,
    alloc: Global,
}

impl<'a, 's, E, R> Drop for Starter<'a, 's, E, R> {
    fn drop(self) {
        let Starter {
            scope: _,
            rt: _,
            alloc: _,
        } = self;
    }
}

/// What a thread does: it remounts, or writes, by its task's number.
fn work<R: Wait, W: RunObserver>(
    rt: &R,
    gates: &Gates,
    plan: Plan,
    watch: &W,
    number: u8,
    task: &mut Task,
) -> Result<Met, GateError>
    requires ready { IsReady gates.now plan number task.old }
    ensures home { ComesHome (W.held watch.now) gates.now plan number task.new result }
{
    if number == REMOUNTER {
        return Ok(Met::Remounter(remount(rt, gates, plan, task)?));
    }
    let writer = number - FIRST_WRITER;
    let writes = write(rt, gates, plan, watch, task, writer, &mut ())?;
    Ok(Met::Writer(writes))
}

/// Starts the thread of a task. NoMemory if it can't be started.
fn spawn_worker<'s, E, R: Wait + Sync, W: RunObserver + Sync>(
    starter: &Starter<'_, 's, E, R>,
    gates: &'s Gates,
    plan: Plan,
    watch: &'s W,
    number: u8,
    task: Task,
) -> Result<Worker<'s, W>, GateError>
    requires ready { IsReady gates.now plan number task }
    ensures home { IfOk result (λ w. (w.promise.gates.now ≡ gates.now) × (w.promise.plan ≡ plan) × (w.promise.watch.now ≡ watch.now)
        × (w.promise.number ≡ number)) }
    ensures refused { IfErr result (λ e. e ≡ NoMemory) }
{
    let home = Home {
        gates,
        plan,
        watch,
        number,
    };
    let rt = starter.rt;
    let run = move || -> Worked
        requires ready { IsReady gates.now plan number task }
        ensures { ComesHome (W.held watch.entry.now) gates.entry.now plan number result.task result.met }
    {
        let mut task = task;
        let met = work(rt, gates, plan, watch, number, &mut task);
        Worked { task, met }
    };
    starter
        .scope
        .spawn_with(home, run)
        .map_err(|_| GateError::NoMemory)
}

/// Splits the next task off, and starts its thread. NoMemory if it can't be started, or a growth was refused.
fn start_worker<'s, E, R: Wait + Sync, W: RunObserver + Sync>(
    starter: &Starter<'_, 's, E, R>,
    gates: &'s Gates,
    plan: Plan,
    watch: &'s W,
    number: u8,
    task: &mut Task,
) -> Result<Worker<'s, W>, GateError>
    requires from { IsFrom task.old gates.now }
    requires planned { gates.now.words.config ≡ run_config plan.tasks plan.processors plan.rounds }
    requires gives { Gives task.old number plan.tasks }
    requires number { (1 ≤ number) × (number < plan.tasks) }
    requires rests { Rests task.old }
    ensures from { IsFrom task.new gates.now }
    ensures rests { OnOk result (Rests task.new) }
    ensures same { OnOk result (own_view task.new.items ≡ own_view task.old.items) }
    ensures gives { OnOk result (Gives task.new (number + 1) plan.tasks) }
    ensures home { IfOk result (λ w. (w.promise.gates.now ≡ gates.now) × (w.promise.plan ≡ plan) × (w.promise.watch.now ≡ watch.now)
        × (w.promise.number ≡ number)) }
    ensures refused { IfErr result (λ e. e ≡ NoMemory) }
{
    let other = task.split(starter.alloc, gates)?;
    spawn_worker(starter, gates, plan, watch, number, other)
}

/// Splits off all other tasks, in their order, and starts their threads.
fn start_workers<'s, E, R: Wait + Sync, W: RunObserver + Sync>(
    starter: &Starter<'_, 's, E, R>,
    gates: &'s Gates,
    plan: Plan,
    watch: &'s W,
    task: &mut Task,
    workers: &mut Vec<Worker<'s, W>>,
) -> Result<(), GateError>
    requires from { IsFrom task.old gates.now }
    requires planned { gates.now.words.config ≡ run_config plan.tasks plan.processors plan.rounds }
    requires gives { Gives task.old 1 plan.tasks }
    requires none { workers.old.items ≡ [] }
    requires rests { Rests task.old }
    ensures from { IsFrom task.new gates.now }
    ensures rests { OnOk result (Rests task.new) }
    ensures same { OnOk result (own_view task.new.items ≡ own_view task.old.items) }
    ensures gives { OnOk result (Gives task.new plan.tasks plan.tasks) }
    ensures all { OnOk result (vec_len workers.new ≡ plan.tasks - 1) }
    ensures homes { OnOk result (EachFrom
        (λ place w. (w.promise.gates.now ≡ gates.now) × (w.promise.plan ≡ plan) × (w.promise.watch.now ≡ watch.now)
        × (w.promise.number ≡ place + 1)) 0 workers.new.items) }
    ensures refused { IfErr result (λ e. e ≡ NoMemory) }
{
    for number in REMOUNTER..FIRST_WRITER + plan.writers() {
        let worker = start_worker(starter, gates, plan, watch, number, task)?;
        let Ok(()) = workers.push(worker) else {
            return Err(GateError::NoMemory);
        };
    }
    Ok(())
}

/// Joins a thread, and takes its task's number back: both tasks rest, so this isn't refused. Tells what it met, or why a call of it was refused.
fn join_worker<R: Threads, W: RunObserver>(
    rt: &R,
    gates: &Gates,
    task: &mut Task,
    worker: Worker<'_, W>,
) -> Result<Met, GateError>
    requires from { IsFrom task.old gates.now }
    requires home { worker.promise.gates.now ≡ gates.now }
    requires rests { Rests task.old }
    requires there { 1 ≤ length task.old.items }
    ensures from { IsFrom task.new gates.now }
    ensures rests { Rests task.new × (1 ≤ length task.new.items) }
    ensures others { (s : SeatedTask) → Among task.old.items s → Among task.new.items s }
    ensures took { (other : SeatedTask) × NeverFroze worker.entry.promise.number other × TookBack task.old other task.new }
    ensures part { IfOk result (TaskShare (Among task.new.items) (W.held worker.entry.promise.watch.now)
        worker.entry.promise.plan.processors worker.entry.promise.plan.rounds worker.entry.promise.number) }
    ensures refused { IfErr result (WriterRefused gates.now worker.entry.promise.plan.tasks worker.entry.promise.plan.processors
        worker.entry.promise.plan.rounds) }
{
    let Worked { task: other, met } = worker.join(rt);
    let Ok(()) = task.join(gates, other) else {
        unreachable!()
    };
    met
}

/// What the tasks that were joined have met, with one more. The first refusal stays.
fn with_worker(
    so_far: Result<(Remounts, Writes), GateError>,
    its: Result<Met, GateError>,
) -> Result<(Remounts, Writes), GateError>
    ensures done { IfOk result (λ met. (before : RemountsType × WritesType) × (m : MetType) × (so_far ≡ Ok before) × (its ≡ Ok m) × (met ≡ with_met before m)) }
    ensures refused { IfErr result (λ refusal. (so_far ≡ Err refusal) ⊎ (its ≡ Err refusal)) }
{
    let (remounts, writes) = so_far?;
    match its? {
        Met::Remounter(its) => Ok((its, writes)),
        Met::Writer(its) => Ok((remounts, its.and(writes))),
    }
}

/// Joins all threads, of this plan and watch, whatever they met, and tells what the remounter met, and the writers together, or the first refusal.
fn join_workers<R: Threads, W: RunObserver>(
    rt: &R,
    gates: &Gates,
    _plan: Plan,
    _watch: &W,
    task: &mut Task,
    workers: &mut Vec<Worker<'_, W>>,
) -> Result<(Remounts, Writes), GateError>
    requires from { IsFrom task.old gates.now }
    requires some { 1 ≤ vec_len workers.old }
    requires homes { EachFrom
        (λ place w. (w.promise.gates.now ≡ gates.now) × (w.promise.plan ≡ _plan) × (w.promise.watch.now ≡ _watch.now)
        × (w.promise.number ≡ place + 1)) 0 workers.old.items }
    requires rests { Rests task.old }
    requires there { 1 ≤ length task.old.items }
    ensures from { IsFrom task.new gates.now }
    ensures rests { Rests task.new }
    ensures back { HasBack 1 (vec_len workers.old + 1) task.old task.new }
    ensures others { (s : SeatedTask) → Among task.old.items s → Among task.new.items s }
    ensures remounted { IfOk result (λ met. Remounted (Among task.new.items) _plan.rounds met.0) }
    ensures wrote { IfOk result (λ met. AllWrote (Among task.new.items) (was_held (W.held _watch.now)) _plan.processors _plan.rounds
        0 (vec_len workers.old - 1) tt tt met.1) }
    ensures refused { IfErr result (WriterRefused gates.now _plan.tasks _plan.processors _plan.rounds) }
{
    let mut met = Ok((Remounts::none(), Writes::none()));
    while let Some(worker) = workers.pop() {
        met = with_worker(met, join_worker(rt, gates, task, worker));
    }
    met
}

/// What all tasks of a run have met. A refusal of the backup comes first.
fn details_of(
    copies: Result<Copies, GateError>,
    others: Result<(Remounts, Writes), GateError>,
) -> Result<Details, GateError>
    ensures done { IfOk result (λ d. (copies ≡ Ok d.copies) × (others ≡ Ok (remounts_of d, d.writes))) }
    ensures refused { IfErr result (λ refusal. (copies ≡ Err refusal) ⊎ (others ≡ Err refusal)) }
{
    let copies = copies?;
    let (remounts, writes) = others?;
    Ok(Details {
        writes,
        busy: remounts.busy,
        remount_waits: remounts.waits,
        copies,
    })
}

/// Creates the files, starts the threads of all other tasks, backs up beside them, and joins them, whatever they and the backup met. It is refused
/// itself if a file can't be created or a thread can't be started.
fn run_threads<'s, E, R: Threads + Wait + Sync, W: RunObserver + Sync>(
    starter: &Starter<'_, 's, E, R>,
    gates: &'s Gates,
    plan: Plan,
    watch: &'s W,
    task: &mut Task,
    workers: &mut Vec<Worker<'s, W>>,
) -> Result<Result<Details, GateError>, GateError>
    requires from { IsFrom task.old gates.now }
    requires planned { gates.now.words.config ≡ run_config plan.tasks plan.processors plan.rounds }
    requires begins { HasBegun 0 task.old }
    requires gives { Gives task.old 1 plan.tasks }
    requires none { workers.old.items ≡ [] }
    ensures joined { IfOk result (AllJoined (W.held watch.now) (W.seen watch.now) gates.now plan task.new) }
    ensures refused { IfErr result (NotStarted gates.now plan.tasks) }
{
    let rt = starter.rt;
    create_files(rt, gates, plan, task)?;
    start_workers(starter, gates, plan, watch, task, workers)?;
    let copies = back_up(rt, gates, plan, watch, task, &mut ());
    let others = join_workers(rt, gates, plan, watch, task, workers);
    Ok(details_of(copies, others))
}

/// Does a run in a scope of threads, and tells what its tasks met: all threads have ended when it returns, whatever it answers, and all tasks were
/// joined to the one that it gives back. It is refused itself if a file can't be created or a thread can't be started.
pub fn in_threads<R: Threads + Wait + Sync, W: RunObserver + Sync>(
    rt: &R,
    alloc: Global,
    gates: &Gates,
    plan: Plan,
    watch: &W,
    task: Task,
) -> Result<(Task, Result<Details, GateError>), GateError>
    requires from { IsFrom task gates.now }
    requires planned { gates.now.words.config ≡ run_config plan.tasks plan.processors plan.rounds }
    requires begins { HasBegun 0 task }
    requires gives { Gives task 1 plan.tasks }
    ensures joined { IfOk result (λ r. AllJoined (W.held watch.now) (W.seen watch.now) gates.now plan r.0 r.1) }
    ensures refused { IfErr result (NotStarted gates.now plan.tasks) }
{
    thread::scope(
        thread::scope_env(),
        rt,
        move |scope| -> Result<(Task, Result<Details, GateError>), GateError>
            requires from { IsFrom task gates.now }
            requires planned { gates.now.words.config ≡ run_config plan.tasks plan.processors plan.rounds }
            requires begins { HasBegun 0 task }
            requires gives { Gives task 1 plan.tasks }
            ensures joined { IfOk result (λ r. AllJoined (W.held watch.entry.now) (W.seen watch.entry.now) gates.entry.now plan r.0 r.1) }
            ensures refused { IfErr result (NotStarted gates.entry.now plan.tasks) }
        {
            let mut task = task;
            let mut workers = Vec::new(alloc);
            let starter = Starter { scope, rt, alloc };
            let met = run_threads(&starter, gates, plan, watch, &mut task, &mut workers)?;
            Ok((task, met))
        },
    )
}
