//! From each state in which an operation is under way a reply is near, or each task under way is blocked by what none of them can change. It
//! has no code: its functions state laws. Its theorem is of any state in which the invariant holds; `every_schedule` has it of every execution.
ghost use Rattle.gate_world.specs.declared.config.Config.{Config};
ghost use Rattle.gate_world.specs.declared.work.Phase.{Phase};
ghost use Rattle.gate_world.specs.Configs.{IsWithin};
ghost use Rattle.gate_world.specs.Rules.{IsGood};
ghost use Rattle.gate_world.specs.Worlds.{World};
ghost use Rattle.gate_schedules.specs.operations.Progress.{EventsKeepRule, EventsMoveModel, BlockedIsStable, Progresses, ReplyOrFrozen, SettlesWithin};
ghost use Rattle.gate_schedules.specs.operations.Ranks.{most_events_to_reply, most_events_to_settle};
ghost use Rattle.gate_schedules.specs.operations.Unblocked.{PhaseEnds};

/// Where the way of a phase is free, each of its steps lowers its rank and leaves its way free. Does nothing: its contract is the law.
pub fn each_event_comes_nearer_to_the_reply()
    ensures { (c : Config) (phase : Phase) → PhaseEnds c phase }
{}

/// Freedom from deadlock, of a state in which the invariant holds, where each step keeps it. With any operation under way:
///
/// - `progress`: a bounded number of steps of tasks under way, which somebody picks one by one, lead to a reply of one of them, whatever
///   the hooks answer; or each operation under way is blocked (`IsBlockedAt`). The bound is the largest of M (P + 2) + 2 N + 22,
///   4 P + 7 T + N + 24 and 3 P + 8 T + N + 34, for M mounts, P processors, T tasks and N nodes.
/// - `settles`: so at most so many steps for each task, which somebody picks one by one, whatever the hooks answer, lead to a state in which
///   each operation that was under way has its reply, or is blocked.
/// - `replies`: so a reply is at most so many steps away, or the file system is frozen as a whole, or an idle task blocks a freeze that is
///   under way.
///
/// It takes nothing, does nothing and answers nothing: its contract is the theorem.
pub fn nobody_is_deadlocked()
    ensures progress { (c : Config) → IsWithin c → EventsKeepRule c → (w : World) → IsGood c w → Progresses c (most_events_to_reply c) w }
    ensures settles { (c : Config) → IsWithin c → EventsKeepRule c → (w : World) → IsGood c w → SettlesWithin c (most_events_to_settle c) w }
    ensures replies { (c : Config) → IsWithin c → EventsKeepRule c → (w : World) → IsGood c w → ReplyOrFrozen c (most_events_to_reply c) w }
{}

/// The converse, so that what is blocked is just that: where each operation under way is blocked, no step of one of them is a reply, and all stay
/// blocked, as long as no hook fails. It takes nothing, does nothing and answers nothing: its contract is the theorem.
pub fn what_is_blocked_stays_so()
    ensures { (c : Config) → EventsMoveModel c → (w : World) → IsGood c w → BlockedIsStable c w }
{}
