//! What comes of every scheduler, of tasks that are lost, and of freezes that give up. It has no code: its functions state laws.
#![tactic(auto)]

ghost use Rattle.progress_laws.specs.Alone.{SettlesAlone};
ghost use Rattle.progress_laws.specs.FairRounds.{BlockedAfterRounds, RoundsExist, SettlesFairly, SettlesOnce, StaysSettled};
ghost use Rattle.progress_laws.specs.FirstReply.{RepliesOrWaits, most_to_reply};
ghost use Rattle.progress_laws.specs.GivingUp.{RepliesOrWaitsForThaw, SettlesImpatiently, most_turns_to_give_up, turns_to_give_up};
ghost use Rattle.progress_laws.specs.LostForEver.{NeverReplies, RemainsForEver};
ghost use Rattle.progress_laws.specs.LostTasks.{EachIsBlockedBy, NobodyReplies, SettlesAmong, WaitsForRemains};
ghost use Rattle.progress_laws.specs.StepsLeft.{most_turns, turns_left};
ghost use Rattle.progress_laws.specs.Undone.{FailsUndone};
ghost use Rattle.progress_laws.specs.WaitFreedom.{IsWaitFree};
ghost use Rattle.gate_world.specs.Configs.{IsWithin};
ghost use Rattle.gate_world.specs.Headline.{world_after};
ghost use Rattle.gate_world.specs.declared.config.Config.{Config};
ghost use Rattle.gate_world.specs.declared.entries.Entry.{Entry};
ghost use Rattle.std.specs.Prelude.{Bool, List, ℕ, ◌≤◌};

/// Wait-freedom: from each point of an operation that waits for nobody, it has its reply once its task has taken so many steps, whatever all
/// others do or leave undone. Does nothing: its contract is the law.
pub fn calls_that_wait_for_nobody_are_wait_free()
    ensures { (c : Config) → IsWithin c → (entries : List Entry) → IsWaitFree c entries }
{}

/// Lost tasks: whichever tasks never step again, at whatever points they are, a scheduler can bring the others to where each of them has its
/// reply or has to wait. Does nothing: its contract is the law.
pub fn the_others_settle_without_lost_tasks()
    ensures { (c : Config) → IsWithin c → (lost : ℕ → Bool) (entries : List Entry) → SettlesAmong c lost (turns_left c (world_after c entries)) (world_after c entries) }
{}

/// The first reply: whichever tasks never step again, a scheduler of the others comes to a reply of one of them within so many steps, or to where
/// each of them that is under way has to wait. Does nothing: its contract is the law.
pub fn the_first_reply_is_near_beside_lost_tasks()
    ensures { (c : Config) → IsWithin c → (lost : ℕ → Bool) (entries : List Entry) → RepliesOrWaits c lost (most_to_reply c) (world_after c entries) }
{}

/// Obstruction-freedom: each task, stepped alone from whatever state, has its reply or has to wait after so many steps, of which there is a bound in
/// each configuration. Does nothing: its contract is the law.
pub fn a_task_alone_settles()
    ensures { (c : Config) → IsWithin c → (entries : List Entry) → SettlesAlone c (world_after c entries) }
{}

/// Fair rounds: if nothing new begins, then after so many rounds, whoever schedules them, each operation under way has its reply or has to
/// wait, as long as `FsHooks::keep_waiting` answers Ok (`patient`). Whatever it answers, so it was before the first of these rounds or after one of them
/// (`once`). Does nothing: its contract is the law.
pub fn fair_rounds_settle()
    ensures patient { (c : Config) → IsWithin c → (lost : ℕ → Bool) (entries : List Entry) → SettlesFairly c lost (turns_left c (world_after c entries)) (world_after c entries) }
    ensures once { (c : Config) → IsWithin c → (lost : ℕ → Bool) (entries : List Entry) → SettlesOnce c lost (turns_left c (world_after c entries)) (world_after c entries) }
{}

/// Where `keep_waiting` answers an error whenever it is asked, no freeze waits for who holds a level: after so many fair rounds each operation has its
/// reply, and each freeze among them, or waits for a thaw (`replies`). Beside lost tasks it may also wait for what one of these has left
/// (`beside_lost`). Does nothing: its contract is the law.
pub fn no_freeze_waits_without_patience()
    ensures replies { (c : Config) → IsWithin c → (entries : List Entry) → RepliesOrWaitsForThaw c (turns_to_give_up c (world_after c entries)) (world_after c entries) }
    ensures beside_lost { (c : Config) → IsWithin c → (lost : ℕ → Bool) (entries : List Entry) → SettlesImpatiently c lost (turns_to_give_up c (world_after c entries)) (world_after c entries) }
{}

/// Where each operation under way of a task that isn't lost has to wait, each is kept by what is listed (`IsBlockedBy`). Does nothing: its contract
/// is the law.
pub fn each_wait_is_kept_by_what_is_listed()
    ensures { (c : Config) → IsWithin c → (lost : ℕ → Bool) (entries : List Entry) → EachIsBlockedBy c lost (world_after c entries) }
{}

/// Where each operation under way of a task that isn't lost has to wait, that stays: no step of such a task changes a word or is a reply, but
/// for a start that looks again while its level is closed, and a freeze that `keep_waiting` tells to give up. Does nothing: its contract is the law.
pub fn what_waits_stays_so()
    ensures { (c : Config) → IsWithin c → (lost : ℕ → Bool) (entries : List Entry) → StaysSettled c lost (world_after c entries) }
{}

/// With no task lost, after so many fair rounds in which `keep_waiting` answers Ok each operation under way has its reply or is blocked
/// (`IsBlockedAt`). Does nothing: its contract is the law.
pub fn fair_rounds_leave_the_blocked()
    ensures { (c : Config) → IsWithin c → (entries : List Entry) → BlockedAfterRounds c (turns_left c (world_after c entries)) (world_after c entries) }
{}

/// And that is exact: where all have to wait, no steps of tasks that aren't lost, in whatever order and number, are a reply, as long as
/// `keep_waiting` answers Ok. Does nothing: its contract is the law.
pub fn nobody_replies_where_all_wait()
    ensures { (c : Config) → IsWithin c → (lost : ℕ → Bool) (entries : List Entry) → NobodyReplies c lost (world_after c entries) }
{}

/// There are as many rounds as one likes, whichever tasks are lost and whatever `keep_waiting` answers. Does nothing: its contract is the law.
pub fn rounds_go_on_for_ever()
    ensures { (c : Config) → IsWithin c → (lost : ℕ → Bool) (entries : List Entry) → RoundsExist c lost (world_after c entries) }
{}

/// Where all have to wait, and somebody does, then all is frozen, or an idle task is inside a level that a freeze closes, or a lost task has left
/// something behind. Does nothing: its contract is the law.
pub fn who_waits_waits_for_what_remains()
    ensures { (c : Config) → IsWithin c → (lost : ℕ → Bool) (entries : List Entry) → WaitsForRemains c lost (world_after c entries) }
{}

/// What a lost task has left behind stays, whatever all others do and begin: the lock, HOLD, a closed level, an odd section, and a count at a mount
/// or a level, which never sums to 0 again. Does nothing: its contract is the law.
pub fn what_a_lost_task_leaves_stays()
    ensures { (c : Config) → IsWithin c → (lost : ℕ → Bool) (entries : List Entry) → RemainsForEver c lost (world_after c entries) }
{}

/// A freeze whose hook failed, one that gave up among them, has left nothing behind at its answer: the stage is 0, no level is closed, `umount` is
/// free, its task holds what it held, and at most marks were cleared. Does nothing: its contract is the law.
pub fn a_freeze_that_fails_is_undone()
    ensures { (c : Config) → IsWithin c → (entries : List Entry) → FailsUndone c entries }
{}

/// The number of turns in the laws above is the state's own, and has a bound in each configuration, also where freezes give up (`giving_up`). It is an
/// upper bound, which isn't shown to be the least. Does nothing: its contract is the law.
pub fn turns_have_a_bound()
    ensures waiting { (c : Config) → IsWithin c → (entries : List Entry) → turns_left c (world_after c entries) ≤ most_turns c }
    ensures giving_up { (c : Config) → IsWithin c → (entries : List Entry) → turns_to_give_up c (world_after c entries) ≤ most_turns_to_give_up c }
{}

/// An operation that meets what a lost task has left never has its reply, whatever all others do and begin; a freeze at its sum, as long as
/// `keep_waiting` answers it Ok. Does nothing: its contract is the law.
pub fn who_meets_it_never_replies()
    ensures { (c : Config) → IsWithin c → (lost : ℕ → Bool) (entries : List Entry) → NeverReplies c lost (world_after c entries) }
{}
