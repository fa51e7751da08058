//! The steps of a callback, in a line.

ghost use Rattle.std.specs.Prelude.{Some, None};
ghost use Rattle.access_model.specs.declared.replies.Next.TheVariants.{Go};
ghost use Rattle.percpu_rwsem.specs.declared.callbacks.CallbackStep.TheVariants.{AwaitsSections, CallsBack, Claims};
ghost use Rattle.percpu_rwsem.specs.declared.transitions.Transition.TheVariants.{Loads};
ghost use Rattle.call_ends.specs.CallingBack.{called_or, calling_at, of_callback, sections_ended};
ghost use Rattle.gate_steps.specs.call_events.Led.{Led, Stands};

use access_model::{Next, Reply};
use cpu_words::{Touch, WordName};
use gate_steps::call_events::{GateWords, GhostSeat, find, find_first};
use gate_world::{Accesses, Op};
use percpu_rwsem::{Callback, CallbackStep, Grace, GraceNext, SyncWord, Transition};

/// Loads the section word of one task after the other, from this one of the grace period on, until each section that was under way has
/// ended. Where one is under way still, how far it has come.
#[inline(always)]
fn await_sections(
    gates: &GateWords,
    seat: &mut GhostSeat,
    accesses: &Accesses,
    level: u8,
    tasks: u8,
    mut grace: Grace,
) -> Option<Grace>
    requires { Stands gates.now None (Go (calling_at level tasks (AwaitsSections grace))) accesses.now seat.old }
    ensures { Led gates.now None (Go (calling_at level tasks (AwaitsSections grace))) accesses.now seat.old (sections_ended level tasks result)
        accesses.now seat.new }
{
    loop {
        let step = CallbackStep::AwaitsSections(grace);
        let here = Callback { level, tasks, step };
        let word = WordName::Section(grace.task);
        let found = find(gates, seat, accesses, here, word, Touch::Load);
        match grace.look(found) {
            GraceNext::More(further) => grace = further,
            GraceNext::Wait(further) => return Some(further),
            GraceNext::Ended => return None,
        }
    }
}

/// Makes the callback's transition, in two steps. Whether it is made: not where the word was none, or another task changed it in between.
/// Then it is tried again, as `rest` says.
#[inline(always)]
fn call_back(
    gates: &GateWords,
    seat: &mut GhostSeat,
    accesses: &Accesses,
    level: u8,
    tasks: u8,
    rest: &mut Next<Callback>,
) -> bool
    requires { Stands gates.now None (Go (calling_at level tasks (CallsBack Loads))) accesses.now seat.old }
    ensures { Led gates.now None (Go (calling_at level tasks (CallsBack Loads))) accesses.now seat.old (called_or result rest.new) accesses.now
        seat.new }
{
    let sync = WordName::Sync(level);
    let step = CallbackStep::CallsBack(Transition::Loads);
    let again = Callback { level, tasks, step };
    let expect = find(gates, seat, accesses, again, sync, Touch::Load);
    let Some(from) = SyncWord::unpack(expect) else {
        *rest = Next::Go(again);
        return false;
    };
    let Some(to) = from.on_callback() else {
        *rest = Next::Go(again);
        return false;
    };
    let put = to.pack();
    let step = CallbackStep::CallsBack(Transition::Exchanges { from, to });
    let here = Callback { level, tasks, step };
    let touch = Touch::Cas { expect, put };
    let found = find(gates, seat, accesses, here, sync, touch);
    if found != expect {
        *rest = Next::Go(again);
        return false;
    }
    true
}

/// The grace period of a callback, and its transition. Whether it is made; where it isn't, what comes next is left in `rest`.
#[inline(always)]
pub fn run_callback(
    gates: &GateWords,
    seat: &mut GhostSeat,
    accesses: &Accesses,
    level: u8,
    tasks: u8,
    grace: Grace,
    rest: &mut Next<Callback>,
) -> bool
    requires { Stands gates.now None (Go (calling_at level tasks (AwaitsSections grace))) accesses.now seat.old }
    ensures { Led gates.now None (Go (calling_at level tasks (AwaitsSections grace))) accesses.now seat.old (called_or result rest.new)
        accesses.now seat.new }
{
    if let Some(further) = await_sections(gates, seat, accesses, level, tasks, grace) {
        let step = CallbackStep::AwaitsSections(further);
        *rest = Next::Wait(Callback { level, tasks, step });
        return false;
    }
    call_back(gates, seat, accesses, level, tasks, rest)
}

/// Runs the callback of a level, from the first step on. What comes after the last one that stands in the line.
#[inline(never)]
pub fn callback_first(
    gates: &GateWords,
    seat: &mut GhostSeat,
    accesses: &Accesses,
    op: Op,
    level: u8,
    tasks: u8,
) -> Next<Callback>
    requires { Stands gates.now (Some op) (Go (calling_at level tasks (Claims Loads))) accesses.now seat.old }
    ensures { Led gates.now (Some op) (Go (calling_at level tasks (Claims Loads))) accesses.now seat.old (of_callback result) accesses.now
        seat.new }
{
    let sync = WordName::Sync(level);
    let step = CallbackStep::Claims(Transition::Loads);
    let again = Callback { level, tasks, step };
    let expect = find_first(gates, seat, accesses, op, again, sync, Touch::Load);
    let Some(from) = SyncWord::unpack(expect) else {
        return Next::Go(again);
    };
    let Some(to) = from.on_claim() else {
        return Next::Done(Ok(Reply::Ran(false)));
    };
    let put = to.pack();
    let step = CallbackStep::Claims(Transition::Exchanges { from, to });
    let here = Callback { level, tasks, step };
    let touch = Touch::Cas { expect, put };
    let found = find(gates, seat, accesses, here, sync, touch);
    if found != expect {
        return Next::Go(again);
    }
    let grace = Grace::start(tasks);
    let mut rest = Next::Done(Ok(Reply::Ran(true)));
    if run_callback(gates, seat, accesses, level, tasks, grace, &mut rest) {
        return Next::Done(Ok(Reply::Ran(true)));
    }
    rest
}
