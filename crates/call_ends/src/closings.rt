//! The steps by which a freeze closes a level, in a line.

ghost use Rattle.std.specs.Prelude.{◌≡◌, None};
ghost use Rattle.access_model.specs.declared.replies.Next.TheVariants.{Go, Wait};
ghost use Rattle.freeze_levels.specs.Freezes.{freeze_closes};
ghost use Rattle.gate_world.specs.declared.work.Phase.TheVariants.{Freezes};
ghost use Rattle.percpu_rwsem.specs.declared.writers.DownWriteStep.TheVariants.{Enters, AwaitsSections, CallsBack, SetsBlock, Sums};
ghost use Rattle.percpu_rwsem.specs.declared.transitions.Transition.TheVariants.{Loads};
ghost use Rattle.percpu_rwsem.specs.Writers.{entered_from};
ghost use Rattle.call_ends.specs.Closings.{awaited, closed_or, closing_at, standing, summed, waiting_at};
ghost use Rattle.gate_steps.specs.call_events.Led.{Led, Stands};

use access_model::Next;
use cpu_words::{Sum, Taken, Touch, WordName};
use freeze_levels::{Freeze, FreezeStep};
use gate_steps::call_events::{GateWords, GhostSeat, find};
use gate_world::Accesses;
use percpu_rwsem::{DownWrite, DownWriteStep, GpState, Grace, GraceNext, SyncWord, Transition};

/// A freeze that closes a level, at this step.
#[inline(always)]
fn closing(freeze: &Freeze, level: u8, step: DownWriteStep) -> Freeze
    ensures { Freezes result ≡ closing_at freeze.now level step }
{
    let write = DownWrite {
        level,
        tasks: freeze.tasks,
        processors: freeze.processors,
        step,
    };
    let step = FreezeStep::Closes(write);
    Freeze { step, ..*freeze }
}

/// Leaves the line, to go on at this step, as `rest` says then. It stands apart, and takes the step by itself, so that nothing is written to
/// memory where the line goes on.
#[cold]
#[inline(never)]
fn leave_to(freeze: &Freeze, level: u8, step: DownWriteStep, rest: &mut Next<Freeze>) -> bool
    ensures { closed_or freeze.now level result rest.new ≡ Go (closing_at freeze.now level step) }
{
    *rest = Next::Go(closing(freeze, level, step));
    false
}

/// Leaves the line, to wait and go on at this step, as `rest` says then.
#[cold]
#[inline(never)]
fn leave_to_wait(freeze: &Freeze, level: u8, step: DownWriteStep, rest: &mut Next<Freeze>) -> bool
    ensures { closed_or freeze.now level result rest.new ≡ Wait (closing_at freeze.now level step) }
{
    *rest = Next::Wait(closing(freeze, level, step));
    false
}

/// Leaves the line where a sum found somebody, to ask the file system whether to wait before the next one, as `rest` says then.
#[cold]
#[inline(never)]
fn leave_to_ask(freeze: &Freeze, level: u8, rest: &mut Next<Freeze>) -> bool
    ensures { closed_or freeze.now level result rest.new ≡ Wait (waiting_at freeze.now level) }
{
    let begun = Sum { words: 0, total: 0 };
    let write = DownWrite {
        level,
        tasks: freeze.tasks,
        processors: freeze.processors,
        step: DownWriteStep::Sums(begun),
    };
    let step = FreezeStep::Waits(write);
    *rest = Next::Wait(Freeze { step, ..*freeze });
    false
}

/// The step after an enter of a word in this state, among so many tasks.
#[inline(always)]
fn entered(state: GpState, tasks: u8) -> DownWriteStep
    ensures { result ≡ entered_from tasks state }
{
    match state {
        GpState::Idle => DownWriteStep::AwaitsSections(Grace::start(tasks)),
        GpState::Enter => DownWriteStep::AwaitsPassed,
        GpState::Passed | GpState::Exit | GpState::Replay => DownWriteStep::SetsBlock,
    }
}

/// Enters the level's `rcu_sync`, in two steps. The step after them: the same again where the word was none, or another task changed it in
/// between.
#[inline(always)]
fn enter(
    gates: &GateWords,
    seat: &mut GhostSeat,
    accesses: &Accesses,
    freeze: &Freeze,
    level: u8,
) -> DownWriteStep
    requires { Stands gates.now None (Go (closing_at freeze.now level (Enters Loads))) accesses.now seat.old }
    ensures { Led gates.now None (Go (closing_at freeze.now level (Enters Loads))) accesses.now seat.old
        (Go (closing_at freeze.now level result)) accesses.now seat.new }
{
    let sync = WordName::Sync(level);
    let again = DownWriteStep::Enters(Transition::Loads);
    let write = DownWrite {
        level,
        tasks: freeze.tasks,
        processors: freeze.processors,
        step: again,
    };
    let step = FreezeStep::Closes(write);
    let here = Freeze { step, ..*freeze };
    let expect = find(gates, seat, accesses, here, sync, Touch::Load);
    let Some(from) = SyncWord::unpack(expect) else {
        return again;
    };
    let Some(to) = from.on_enter() else {
        return again;
    };
    let put = to.pack();
    let step = DownWriteStep::Enters(Transition::Exchanges { from, to });
    let step = FreezeStep::Closes(DownWrite { step, ..write });
    let here = Freeze { step, ..*freeze };
    let touch = Touch::Cas { expect, put };
    let found = find(gates, seat, accesses, here, sync, touch);
    if found == expect {
        entered(from.state, freeze.tasks)
    } else {
        again
    }
}

/// Loads the section word of one task after the other, from this one of the grace period on, until each section that was under way has
/// ended. Where one is under way still, how far it has come.
#[inline(always)]
fn await_sections(
    gates: &GateWords,
    seat: &mut GhostSeat,
    accesses: &Accesses,
    freeze: &Freeze,
    level: u8,
    mut grace: Grace,
) -> Option<Grace>
    requires { Stands gates.now None (Go (closing_at freeze.now level (AwaitsSections grace))) accesses.now seat.old }
    ensures { Led gates.now None (Go (closing_at freeze.now level (AwaitsSections grace))) accesses.now seat.old
        (awaited freeze.now level result) accesses.now seat.new }
{
    loop {
        let step = DownWriteStep::AwaitsSections(grace);
        let here = Freeze {
            step: FreezeStep::Closes(DownWrite {
                level,
                tasks: freeze.tasks,
                processors: freeze.processors,
                step,
            }),
            ..*freeze
        };
        let found = find(
            gates,
            seat,
            accesses,
            here,
            WordName::Section(grace.task),
            Touch::Load,
        );
        match grace.look(found) {
            GraceNext::More(further) => grace = further,
            GraceNext::Wait(further) => return Some(further),
            GraceNext::Ended => return None,
        }
    }
}

/// Ends the grace period, in two steps. The step after them: the same again where the word was none, or another task changed it in between.
#[inline(always)]
fn call_back(
    gates: &GateWords,
    seat: &mut GhostSeat,
    accesses: &Accesses,
    freeze: &Freeze,
    level: u8,
) -> DownWriteStep
    requires { Stands gates.now None (Go (closing_at freeze.now level (CallsBack Loads))) accesses.now seat.old }
    ensures { Led gates.now None (Go (closing_at freeze.now level (CallsBack Loads))) accesses.now seat.old
        (Go (closing_at freeze.now level result)) accesses.now seat.new }
{
    let sync = WordName::Sync(level);
    let again = DownWriteStep::CallsBack(Transition::Loads);
    let write = DownWrite {
        level,
        tasks: freeze.tasks,
        processors: freeze.processors,
        step: again,
    };
    let step = FreezeStep::Closes(write);
    let here = Freeze { step, ..*freeze };
    let expect = find(gates, seat, accesses, here, sync, Touch::Load);
    let Some(from) = SyncWord::unpack(expect) else {
        return again;
    };
    let Some(to) = from.on_callback() else {
        return again;
    };
    let put = to.pack();
    let step = DownWriteStep::CallsBack(Transition::Exchanges { from, to });
    let step = FreezeStep::Closes(DownWrite { step, ..write });
    let here = Freeze { step, ..*freeze };
    let touch = Touch::Cas { expect, put };
    let found = find(gates, seat, accesses, here, sync, touch);
    if found == expect {
        DownWriteStep::SetsBlock
    } else {
        again
    }
}

/// Loads the count word of one processor after the other, from this one of the sum on. Whether nobody was counted: then the level is closed.
#[inline(always)]
fn sum_counts(
    gates: &GateWords,
    seat: &mut GhostSeat,
    accesses: &Accesses,
    freeze: &Freeze,
    level: u8,
    mut sum: Sum,
) -> bool
    requires { Stands gates.now None (Go (closing_at freeze.now level (Sums sum))) accesses.now seat.old }
    ensures { Led gates.now None (Go (closing_at freeze.now level (Sums sum))) accesses.now seat.old (summed freeze.now level result)
        accesses.now seat.new }
{
    loop {
        let step = DownWriteStep::Sums(sum);
        let here = Freeze {
            step: FreezeStep::Closes(DownWrite {
                level,
                tasks: freeze.tasks,
                processors: freeze.processors,
                step,
            }),
            ..*freeze
        };
        let word = WordName::LevelCount(level, sum.words);
        let found = find(gates, seat, accesses, here, word, Touch::Load);
        match sum.take(found, freeze.processors) {
            Taken::More(further) => sum = further,
            Taken::Total(total) => return total == 0,
        }
    }
}

/// Sums the read counts. Whether nobody was counted.
#[inline(always)]
fn sum(
    gates: &GateWords,
    seat: &mut GhostSeat,
    accesses: &Accesses,
    freeze: &Freeze,
    level: u8,
    so_far: Sum,
    rest: &mut Next<Freeze>,
) -> bool
    requires { Stands gates.now None (Go (closing_at freeze.now level (Sums so_far))) accesses.now seat.old }
    ensures { Led gates.now None (Go (closing_at freeze.now level (Sums so_far))) accesses.now seat.old
        (closed_or freeze.now level result rest.new) accesses.now seat.new }
{
    if sum_counts(gates, seat, accesses, freeze, level, so_far) {
        return true;
    }
    leave_to_ask(freeze, level, rest)
}

/// Sets `block` and sums the read counts. Whether the level is closed.
#[inline(always)]
fn block(
    gates: &GateWords,
    seat: &mut GhostSeat,
    accesses: &Accesses,
    freeze: &Freeze,
    level: u8,
    rest: &mut Next<Freeze>,
) -> bool
    requires { Stands gates.now None (Go (closing_at freeze.now level SetsBlock)) accesses.now seat.old }
    ensures { Led gates.now None (Go (closing_at freeze.now level SetsBlock)) accesses.now seat.old (closed_or freeze.now level result rest.new)
        accesses.now seat.new }
{
    let step = DownWriteStep::SetsBlock;
    let write = DownWrite {
        level,
        tasks: freeze.tasks,
        processors: freeze.processors,
        step,
    };
    let here = Freeze {
        step: FreezeStep::Closes(write),
        ..*freeze
    };
    let block = WordName::Block(level);
    let found = find(gates, seat, accesses, here, block, Touch::Swap(1));
    if found != 0 {
        return leave_to_wait(freeze, level, step, rest);
    }
    sum(gates, seat, accesses, freeze, level, Sum::start(), rest)
}

/// Waits for the grace period, and closes the level after it. Whether it is closed.
#[inline(always)]
fn pass(
    gates: &GateWords,
    seat: &mut GhostSeat,
    accesses: &Accesses,
    freeze: &Freeze,
    level: u8,
    grace: Grace,
    rest: &mut Next<Freeze>,
) -> bool
    requires { Stands gates.now None (Go (closing_at freeze.now level (AwaitsSections grace))) accesses.now seat.old }
    ensures { Led gates.now None (Go (closing_at freeze.now level (AwaitsSections grace))) accesses.now seat.old
        (closed_or freeze.now level result rest.new) accesses.now seat.new }
{
    match await_sections(gates, seat, accesses, freeze, level, grace) {
        Some(further) => {
            let step = DownWriteStep::AwaitsSections(further);
            leave_to_wait(freeze, level, step, rest)
        }
        None => match call_back(gates, seat, accesses, freeze, level) {
            DownWriteStep::SetsBlock => block(gates, seat, accesses, freeze, level, rest),
            step => leave_to(freeze, level, step, rest),
        },
    }
}

/// Closes a level, up to the load that finds nobody inside, or up to what stands in its way. Whether it is closed; where it isn't, what comes
/// next of the freeze is left in `rest`. So the usual answer is one bit, and no part of the freeze is written to memory.
#[inline(never)]
pub(crate) fn close_level(
    gates: &GateWords,
    seat: &mut GhostSeat,
    accesses: &Accesses,
    freeze: &Freeze,
    level: u8,
    rest: &mut Next<Freeze>,
) -> bool
    requires { Stands gates.now None (Go (standing freeze.now (freeze_closes freeze.now level))) accesses.now seat.old }
    ensures { Led gates.now None (Go (standing freeze.now (freeze_closes freeze.now level))) accesses.now seat.old
        (closed_or freeze.now level result rest.new) accesses.now seat.new }
{
    match enter(gates, seat, accesses, freeze, level) {
        DownWriteStep::SetsBlock => block(gates, seat, accesses, freeze, level, rest),
        DownWriteStep::AwaitsSections(grace) => {
            pass(gates, seat, accesses, freeze, level, grace, rest)
        }
        step => leave_to(freeze, level, step, rest),
    }
}

/// Goes on with the closing of a level, from this step on. Whether it is closed; where it isn't, what comes next is left in `rest`.
#[inline(never)]
pub(crate) fn go_on_closing(
    gates: &GateWords,
    seat: &mut GhostSeat,
    accesses: &Accesses,
    freeze: &Freeze,
    level: u8,
    step: DownWriteStep,
    rest: &mut Next<Freeze>,
) -> bool
    requires { Stands gates.now None (Go (closing_at freeze.now level step)) accesses.now seat.old }
    ensures { Led gates.now None (Go (closing_at freeze.now level step)) accesses.now seat.old (closed_or freeze.now level result rest.new)
        accesses.now seat.new }
{
    match step {
        DownWriteStep::Enters(transition) => match transition {
            Transition::Loads => close_level(gates, seat, accesses, freeze, level, rest),
            Transition::Exchanges { .. } => leave_to(freeze, level, step, rest),
        },
        DownWriteStep::AwaitsSections(grace) => {
            pass(gates, seat, accesses, freeze, level, grace, rest)
        }
        DownWriteStep::SetsBlock => block(gates, seat, accesses, freeze, level, rest),
        DownWriteStep::Sums(so_far) => sum(gates, seat, accesses, freeze, level, so_far, rest),
        DownWriteStep::CallsBack(_) | DownWriteStep::AwaitsPassed => {
            leave_to(freeze, level, step, rest)
        }
    }
}
