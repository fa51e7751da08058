//! What holds of every execution.

ghost use Rattle.std.specs.Prelude.{ℕ, List};
ghost use Rattle.gate_world.specs.declared.config.Config.{Config};
ghost use Rattle.gate_world.specs.Configs.{IsWithin};
ghost use Rattle.gate_world.specs.declared.entries.Entry.{Entry};
ghost use Rattle.gate_world.specs.Rules.{IsGood};
ghost use Rattle.gate_world.specs.Headline.{world_after, MovesTheModel, IsOneRun, NobodyIsInside, SumsHold, IdleSumsHold, NothingIsLeft, FreezeIsUnderWay, HoldersAreTold, FrozenTreeIsWhole, FrozenTreeStays, SnapshotsStand, OperationsAreKept};
ghost use Rattle.gate_world.specs.refusals.Causes.{RefusalsHaveCauses};
ghost use Rattle.gate_world.specs.LevelRuns.{LevelsAreRuns};
ghost use Rattle.gate_world.specs.refusals.Waits.{EachWaitHasCulprit};
ghost use Rattle.gate_schedules.specs.Frozen.{FrozenIsClosed};
ghost use Rattle.gate_schedules.specs.Leads.{SumsLead};
ghost use Rattle.gate_schedules.specs.operations.Progress.{EverybodySettles, BlockedStaysBlocked, ReplyOrAllBlocked, RepliesOrIsFrozen};
ghost use Rattle.gate_schedules.specs.operations.Ranks.{most_events_to_reply, most_events_to_settle};

/// The theorem: what holds in every execution of every configuration within the limits.
///
/// An execution is any list of transitions: beginnings, refused ones included, and steps with any
/// hook answers, of any tasks, with any numbers in their types' ranges. docs/theorem.md says of
/// each clause what it doesn't say, and has the terms: *held*, *sought*, *under way*, *passed*.
///
/// Safety:
///
/// - `moves`: a step that adds an action adds one that the specification allows. It moves the
///   abstract state by its effect, and every other transition leaves that as it was.
/// - `run`: the actions so far are one trace that the specification allows. Each task's list is its
///   part of it, and each snapshot has its moment in it.
/// - `inside`: nobody holds an access at a read-only mount, nor at a level that a freeze has
///   passed.
/// - `frozen`: at SB_FREEZE_COMPLETE all levels are passed with nobody inside, or the superblock is
///   read-only and nobody holds an access at a mount.
/// - `sums`, `idle`: the counts of a gate sum to what is held and sought there. If all tasks are
///   idle, they sum to what is held.
/// - `leads`: while a task sums counts, what it has read and what is to come is at least what is
///   held, and far below 2^64.
/// - `rests`: with all tasks idle nothing is left behind: no owner, no flag, no section, no
///   half-done freeze, and a sound tree.
/// - `freezes`: between SB_UNFROZEN and SB_FREEZE_COMPLETE exactly one freeze is under way, and the
///   stage is the one that it stored last.
/// - `holders`: a word says who holds a freeze. The kernel or user space does exactly at
///   SB_FREEZE_COMPLETE, but between two stores of one operation.
/// - `trees`: at SB_FREEZE_COMPLETE the tree is sound and no file is dirty, whatever is under way.
/// - `stays`: as long as a holder's freeze stands, the stage, the closed levels and the tree stay.
/// - `snapshots`: what a snapshot under way has loaded is still so, but for how many tasks have a
///   file open.
/// - `levels`: each freeze level keeps its grace periods. A writer that is past one finds nobody on
///   the level's fast path.
///
/// Answers:
///
/// - `operations`: an operation that replied did exactly its stated actions. A refused one read
///   what requires the refusal, and its task holds what it held.
/// - `causes`: a refusal's condition was true at some instant since the operation began, but for
///   `NoSpace`, `Hook` and a tree call's own `Again`.
/// - `waits`: every wait has a blocker.
///
/// Progress, as what is possible and not as what comes by itself:
///
/// - `progress`: whatever the hooks answer, a scheduler can bring some pending operation to its
///   reply within a bounded number of steps, or all are blocked.
/// - `settles`: it can go on so until each operation has its reply, or all that are left are
///   blocked.
/// - `replies`: so a reply is near, unless the file system is frozen as a whole or an idle task
///   blocks a freeze.
/// - `blocked_stays`: if all operations are blocked, no step of theirs is a reply, and they stay
///   blocked as long as no hook fails.
///
/// The function takes nothing, does nothing and answers nothing: its contract is the theorem.
/// `Core` refines the states by `Represents`.
pub fn every_schedule()
    ensures moves { (c : Config) → IsWithin c → (entries : List Entry) (next : Entry) → MovesTheModel c entries next }
    ensures run { (c : Config) → IsWithin c → (entries : List Entry) → IsOneRun c entries }
    ensures inside { (c : Config) → IsWithin c → (entries : List Entry) → NobodyIsInside c (world_after c entries) }
    ensures frozen { (c : Config) → IsWithin c → (entries : List Entry) → FrozenIsClosed c (world_after c entries) }
    ensures sums { (c : Config) → IsWithin c → (entries : List Entry) → SumsHold c (world_after c entries) }
    ensures idle { (c : Config) → IsWithin c → (entries : List Entry) → IdleSumsHold c (world_after c entries) }
    ensures leads { (c : Config) → IsWithin c → (entries : List Entry) → SumsLead c (world_after c entries) }
    ensures rests { (c : Config) → IsWithin c → (entries : List Entry) → NothingIsLeft c (world_after c entries) }
    ensures freezes { (c : Config) → IsWithin c → (entries : List Entry) → FreezeIsUnderWay c (world_after c entries) }
    ensures holders { (c : Config) → IsWithin c → (entries : List Entry) → HoldersAreTold c (world_after c entries) }
    ensures trees { (c : Config) → IsWithin c → (entries : List Entry) → FrozenTreeIsWhole c (world_after c entries) }
    ensures stays { (c : Config) → IsWithin c → (entries more : List Entry) → FrozenTreeStays c entries more }
    ensures snapshots { (c : Config) → IsWithin c → (entries : List Entry) → SnapshotsStand c (world_after c entries) }
    ensures levels { (c : Config) → IsWithin c → (entries : List Entry) → LevelsAreRuns c entries }
    ensures operations { (c : Config) → IsWithin c → (entries : List Entry) (t : ℕ) → OperationsAreKept c entries t }
    ensures causes { (c : Config) → IsWithin c → (entries : List Entry) → RefusalsHaveCauses c entries }
    ensures waits { (c : Config) → IsWithin c → (entries : List Entry) → EachWaitHasCulprit c entries }
    ensures progress { (c : Config) → IsWithin c → (entries : List Entry) → ReplyOrAllBlocked c (most_events_to_reply c) entries }
    ensures settles { (c : Config) → IsWithin c → (entries : List Entry) → EverybodySettles c (most_events_to_settle c) entries }
    ensures replies { (c : Config) → IsWithin c → (entries : List Entry) → RepliesOrIsFrozen c (most_events_to_reply c) entries }
    ensures blocked_stays { (c : Config) → IsWithin c → (entries : List Entry) → BlockedStaysBlocked c entries }
{}

/// The inductive invariant from which the theorem follows, in every state of every execution.
///
/// It speaks of what each phase has found and is about to do: counts, holdings, the owner's words,
/// the stage, the tree and its marks, mounts, levels, sections, who holds a freeze, open files. It
/// stands apart, because a reader of the theorem needn't read it.
pub fn every_schedule_keeps_the_rule()
    ensures rule { (c : Config) → IsWithin c → (entries : List Entry) → IsGood c (world_after c entries) }
{}
