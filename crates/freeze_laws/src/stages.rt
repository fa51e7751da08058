//! The laws of the stage: how far a freeze has come, the superblock's flags, the blocks of the levels and the marks of the nodes, over
//! plain numbers and what each task is doing with them. It has no code: its functions state laws.

ghost use Rattle.std.specs.Prelude.{ℕ};
ghost use Rattle.freeze_laws.specs.stages.Events.{Holds};
ghost use Rattle.freeze_laws.specs.stages.Laws.{opening, EventsKeep, ActionsAreAllowed, ActionsHaveTheirEffect};
ghost use Rattle.freeze_laws.specs.stages.Laws.{FreezeIsUnderWay, FreezeKeepsOthersOut, PositionsAreAlone, OnlyTheFreezeMovesTheStage};
ghost use Rattle.freeze_laws.specs.stages.Laws.{PositionsTellTheLevels, FrozenAsAWhole, NobodyAtStageFour, OpenElsewhere, LevelsPassInOrder};
ghost use Rattle.freeze_laws.specs.stages.Laws.{FreezeAndThawHappen};

/// What holds of the stage and of the marks holds at the beginning, and each step keeps it. Does nothing: its contract is the law.
pub fn each_event_keeps_the_stages()
    ensures begins { (tasks nodes : ℕ) → Holds tasks nodes opening }
    ensures keeps { EventsKeep }
{}

/// The action of each step is allowed, and has the effect that is shown after it; a step without one changes nothing of it. Does
/// nothing: its contract is the law.
pub fn each_action_is_allowed()
    ensures allowed { ActionsAreAllowed }
    ensures effects { ActionsHaveTheirEffect }
{}

/// At stages 1 to 3 a freeze is under way: nobody else moves the stage, no other owner relies on stage 0, and no second freeze or thaw has
/// levels of its own. Does nothing: its contract is the law.
pub fn one_freeze_is_under_way()
    ensures freezes { FreezeIsUnderWay }
    ensures keeps_out { FreezeKeepsOthersOut }
    ensures alone { PositionsAreAlone }
    ensures moves { OnlyTheFreezeMovesTheStage }
{}

/// Which levels are closed and passed follows from the one task that has a position, or from the stage where nobody has. Does nothing:
/// its contract is the law.
pub fn positions_tell_the_levels()
    ensures positions { PositionsTellTheLevels }
    ensures frozen { FrozenAsAWhole }
    ensures at_four { NobodyAtStageFour }
    ensures elsewhere { OpenElsewhere }
    ensures order { LevelsPassInOrder }
{}

/// A whole freeze and a whole thaw happen, each step as it is asked for. Does nothing: its contract is the law.
pub fn a_freeze_and_a_thaw_happen()
    ensures { FreezeAndThawHappen }
{}
