//! Laws of the hooks that whole calls ask. The functions here do nothing: their contracts are the laws.

ghost use Rattle.std.specs.Prelude.{Bool, Err, Ok, Result};
ghost use Rattle.access_model.specs.declared.actions.Holder.{Holder};
ghost use Rattle.access_model.specs.declared.replies.Reply.{Reply};
ghost use Rattle.gate_world.specs.declared.operations.Op.TheVariants.{Freeze, RemountSb, Thaw};
ghost use Rattle.freeze_levels.specs.declared.hooks.HookCall.TheVariants.{UnfreezeFs, Reconfigure};
ghost use Rattle.gate_world.specs.traces.Traces.{actions_of};
ghost use Rattle.gate_steps.specs.call_events.Asked.{AskedByFreeze, AskedByRefused, AskedByRefusedFreeze, AtMostAsked};
ghost use Rattle.gate_steps.specs.call_events.Asking.{asks_of};
ghost use Rattle.access_model.specs.declared.errors.GateError.{GateError};
ghost use Rattle.gate_world.specs.declared.operations.Op.{Op};
ghost use Rattle.gate_steps.specs.call_events.Grown.{AllGoOn};
ghost use Rattle.gate_steps.specs.call_events.Runs.{Called};
ghost use Rattle.gate_steps.specs.call_events.SeatedTasks.{SeatedTask};

/// A freeze that was granted has asked `sync` once and then `freeze_fs` once, and both have agreed, where it has stored stage 3; else none.
/// Where it has found somebody inside a level, it has asked `keep_waiting` besides: any number of times, of the levels 1 and 2 before `sync` and
/// of level 3 after it, and each time that has agreed. Does nothing: its contract is the law.
pub fn a_granted_freeze_asks_each_hook_once()
    ensures { (holder : Holder) (old left : SeatedTask) (reply : Reply) (called : Called (Freeze holder) old left (Ok reply)) →
        AskedByFreeze (actions_of (Freeze holder) (Ok reply) called.trace) (asks_of old.config (Freeze holder) old.items called.trace) }
{}

/// A thaw that was granted has asked `unfreeze_fs` once, which has agreed, or no hook: of a superblock that is read-only, and where another
/// holder's freeze stands. Does nothing: its contract is the law.
pub fn a_granted_thaw_asks_at_most_once()
    ensures { (holder : Holder) (old left : SeatedTask) (reply : Reply) (called : Called (Thaw holder) old left (Ok reply)) →
        AtMostAsked UnfreezeFs (asks_of old.config (Thaw holder) old.items called.trace) }
{}

/// A remount that was granted has asked `reconfigure` once, for the state that it was asked for, which has agreed, or no hook: of a
/// superblock that was so. Does nothing: its contract is the law.
pub fn a_granted_remount_asks_for_its_state()
    ensures { (read_only : Bool) (old left : SeatedTask) (reply : Reply) (called : Called (RemountSb read_only) old left (Ok reply)) →
        AtMostAsked (Reconfigure read_only) (asks_of old.config (RemountSb read_only) old.items called.trace) }
{}

/// A call that a hook refused has asked it last, and it has failed with just that code, and all hooks that a freeze asked before it have agreed; and
/// a call that was refused otherwise has asked none. So a file system whose hooks all answer Ok refuses none. Does nothing: its contract is the law.
pub fn a_refused_call_asked_the_hook_that_failed()
    ensures freeze { (holder : Holder) (old left : SeatedTask) (refusal : GateError) (called : Called (Freeze holder) old left (Err refusal)) →
        AskedByRefusedFreeze refusal (actions_of (Freeze holder) (Err refusal) called.trace) (asks_of old.config (Freeze holder) old.items called.trace) }
    ensures thaw { (holder : Holder) (old left : SeatedTask) (refusal : GateError) (called : Called (Thaw holder) old left (Err refusal)) →
        AskedByRefused UnfreezeFs refusal (asks_of old.config (Thaw holder) old.items called.trace) }
    ensures remount { (read_only : Bool) (old left : SeatedTask) (refusal : GateError) (called : Called (RemountSb read_only) old left (Err refusal)) →
        AskedByRefused (Reconfigure read_only) refusal (asks_of old.config (RemountSb read_only) old.items called.trace) }
{}

/// The schedule in which a call ends goes on from each that its task had seen before. Does nothing: its contract is the law.
pub fn a_call_goes_on_from_what_was_seen()
    ensures { (op : Op) (old left : SeatedTask) (answer : Result Reply GateError) → Called op old left answer → AllGoOn old.seen left.seen }
{}
