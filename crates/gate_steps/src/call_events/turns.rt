//! One step of an operation under way, apart from the task that does it: so nothing is written down between two steps of a
//! call, and what is known of the operation lets its steps become a straight line of code.

ghost use Rattle.std.specs.Prelude.{◌≡◌, ℕ, Some, None, Ok, List};
ghost use Rattle.access_model.specs.declared.replies.Next.TheVariants.{Go};
ghost use Rattle.cpu_words.specs.Hooks.{HookAnswer};
ghost use Rattle.gate_world.specs.Accesses.{accesses_after};
ghost use Rattle.gate_world.specs.Work.{next_of, after_of};
ghost use Rattle.gate_steps.specs.Seating.{items_after};
ghost use Rattle.gate_steps.specs.call_events.Led.{Led, LedAsking, Stands, StaysSeated, seated_at};
ghost use Rattle.access_model.specs.Replies.{map_next};
ghost use Rattle.gate_steps.specs.call_events.Stepped.{Stepped};
ghost use Rattle.gate_steps.specs.call_events.Turns.{step_was};
ghost use Rattle.gate_steps.specs.call_events.Asking.{Ask, asks_with, call_at, OpUnderWayWith, OpAfterStepWith};
ghost use Rattle.gate_steps.specs.call_events.SeatedTasks.{SeatedTask};
ghost use Rattle.gate_world.specs.declared.operations.Op.{Op as OpType};

use crate::call_events::hooks::TimedHooks;
use crate::call_events::words::{GateWords, GhostSeat};
use access_model::{Action, Next};
use cpu_words::{Event, Touch, WordName};
use freeze_levels::HookCall;
use gate_transitions::PendingOp;
use gate_world::{Accesses, Op};

/// A step, the action that it added, and what comes after it.
pub struct StepResult<P> {
    /// The step.
    pub event: Event,
    /// The action, where it added one.
    pub action: Option<Action>,
    /// What comes after it.
    pub next: Next<P>,
}

/// Does the next step of an operation under way, in one atomic step by the seat, and to the accesses what its action does.
#[inline(always)]
pub fn do_event<P: PendingOp>(
    gates: &GateWords,
    seat: &mut GhostSeat,
    accesses: &mut Accesses,
    begins: Option<Op>,
    under_way: P,
    hook: Result<(), u16>,
) -> StepResult<P>
    requires { Stands gates.now begins (Go (P.as_phase under_way)) accesses.old seat.old }
    ensures seated { StaysSeated gates.now begins (Go (P.as_phase under_way)) accesses.old seat.old (map_next P.as_phase result.next) accesses.new
        seat.new }
    ensures stepped { Stepped (P.as_phase under_way) hook (seated_at gates.now begins (Go (P.as_phase under_way)) seat.old)
        (step_was result.event result.action (map_next P.as_phase result.next)) (seated_at gates.now None (map_next P.as_phase result.next) seat.new) }
{
    let event = gates.event(seat, begins, under_way, hook);
    let (next, action) = under_way.after(event.found, hook);
    accesses.apply(action);
    StepResult {
        event,
        action,
        next,
    }
}

/// Does the next step of an operation whose call does one step after the other, and returns what comes after it.
#[inline(always)]
pub fn step_once<P: PendingOp>(
    gates: &GateWords,
    seat: &mut GhostSeat,
    accesses: &mut Accesses,
    begins: Option<Op>,
    under_way: P,
    hook: Result<(), u16>,
) -> Next<P>
    requires { Stands gates.now begins (Go (P.as_phase under_way)) accesses.old seat.old }
    ensures seated { StaysSeated gates.now begins (Go (P.as_phase under_way)) accesses.old seat.old (map_next P.as_phase result) accesses.new seat.new }
    ensures asks { (op : OpType) (start : SeatedTask) (asks : List Ask) (waits : ℕ) →
        OpUnderWayWith asks waits op start (seated_at gates.now begins (Go (P.as_phase under_way)) seat.old) →
        OpAfterStepWith (asks_with (call_at (P.as_phase under_way)) seat.old.me.0.items hook asks) waits op start (map_next P.as_phase result)
        (seated_at gates.now None (map_next P.as_phase result) seat.new) }
{
    let StepResult {
        event: _,
        action: _,
        next,
    } = do_event(gates, seat, accesses, begins, under_way, hook);
    next
}

/// Does the next step of an operation that goes on, which is known to touch this word so, asks no hook and adds no action on accesses. Returns
/// what it found; of a store, what it wrote. Whoever calls it says what comes after it, so that it stands in a line of code.
#[inline(always)]
pub fn find<P: PendingOp>(
    gates: &GateWords,
    seat: &mut GhostSeat,
    accesses: &Accesses,
    under_way: P,
    word: WordName,
    touch: Touch,
) -> u64
    requires known { (word, touch) ≡ next_of (P.as_phase under_way) (Ok tt) }
    requires unasked { call_at (P.as_phase under_way) ≡ None }
    requires leaves { (found : ℕ) → accesses.now ≡ accesses_after accesses.now (after_of (P.as_phase under_way) found (Ok tt)).1 }
    requires stands { Stands gates.now None (Go (P.as_phase under_way)) accesses.now seat.old }
    ensures led { Led gates.now None (Go (P.as_phase under_way)) accesses.now seat.old (after_of (P.as_phase under_way) result (Ok tt)).0
        accesses.now seat.new }
    ensures items { seat.new.me.0.items ≡ items_after None (P.as_phase under_way) (Ok tt) result seat.old.me.0.items }
{
    let _ = accesses;
    gates.touch(seat, None, under_way, Ok(()), word, touch)
}

/// Does the first step of an operation that has begun, known as that of `find`. Returns what it found.
#[inline(always)]
pub fn find_first<P: PendingOp>(
    gates: &GateWords,
    seat: &mut GhostSeat,
    accesses: &Accesses,
    op: Op,
    under_way: P,
    word: WordName,
    touch: Touch,
) -> u64
    requires known { (word, touch) ≡ next_of (P.as_phase under_way) (Ok tt) }
    requires unasked { call_at (P.as_phase under_way) ≡ None }
    requires leaves { (found : ℕ) → accesses.now ≡ accesses_after accesses.now (after_of (P.as_phase under_way) found (Ok tt)).1 }
    requires stands { Stands gates.now (Some op) (Go (P.as_phase under_way)) accesses.now seat.old }
    ensures led { Led gates.now (Some op) (Go (P.as_phase under_way)) accesses.now seat.old (after_of (P.as_phase under_way) result (Ok tt)).0
        accesses.now seat.new }
    ensures items { seat.new.me.0.items ≡ items_after (Some op) (P.as_phase under_way) (Ok tt) result seat.old.me.0.items }
{
    let _ = accesses;
    gates.touch(seat, Some(op), under_way, Ok(()), word, touch)
}

/// Asks the hook whose answer the next step of an operation reads, and does the step as the hook has answered: it adds no action on accesses.
/// Returns the answer.
#[inline(always)]
pub fn find_asking<P: PendingOp, H: TimedHooks>(
    gates: &GateWords,
    seat: &mut GhostSeat,
    accesses: &Accesses,
    under_way: P,
    hooks: &mut H,
    call: HookCall,
) -> Result<(), u16>
    requires wanted { call_at (P.as_phase under_way) ≡ Some call }
    requires leaves { (found : ℕ) (hook : HookAnswer) → accesses.now ≡ accesses_after accesses.now (after_of (P.as_phase under_way) found hook).1 }
    requires stands { Stands gates.now None (Go (P.as_phase under_way)) accesses.now seat.old }
    ensures { (found : ℕ) × LedAsking H.answers gates.now None (Go (P.as_phase under_way)) accesses.now seat.old hooks.old
        (after_of (P.as_phase under_way) found result).0 accesses.now seat.new hooks.new }
{
    let _ = accesses;
    let answer = hooks.ask(call, seat);
    let (word, touch) = under_way.next(answer);
    let _found = gates.touch(seat, None, under_way, answer, word, touch);
    answer
}
