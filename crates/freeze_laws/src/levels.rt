//! The laws of a freeze level without its counts: its `rcu_sync` word, the grace periods of its writers and callbacks, the sections of
//! tasks, and the fast path of its readers, over plain numbers and what each task is doing there. It has no code: its functions state
//! laws.

ghost use Rattle.std.specs.Prelude.{ℕ};
ghost use Rattle.freeze_laws.specs.levels.Events.{SyncLevelHolds};
ghost use Rattle.freeze_laws.specs.levels.Exchanges.{ExchangesMakeTransitions};
ghost use Rattle.freeze_laws.specs.levels.Laws.{EventsKeep, EntersAlone, WritersFind, opening};
ghost use Rattle.freeze_laws.specs.levels.Laws.{FastFindsOpen, StaysSlow, GracesAreWhole, IdleIsEarned};
ghost use Rattle.freeze_laws.specs.levels.Numbers.{TransitionsAreAlwaysDefined};
ghost use Rattle.freeze_laws.specs.levels.Operations.{DownReadsAreThere, DownWritesAreThere, UpWritesAreThere, CallbacksAreThere};

/// What holds at a level holds at its beginning, and each step there keeps it; a writer that has entered is the only one, and finds
/// what it needs. Does nothing: its contract is the law.
pub fn events_keep_the_level()
    ensures opens { (tasks : ℕ) → SyncLevelHolds tasks opening }
    ensures keeps { EventsKeep }
    ensures alone { EntersAlone }
    ensures finds { WritersFind }
{}

/// Each step of a down-read, a down-write, an up-write or a callback is one of those that keep the level. (An up-read's only step is on a
/// count.) Does nothing: its contract is the law.
pub fn operations_are_events_of_their_level()
    ensures down_reads { DownReadsAreThere }
    ensures down_writes { DownWritesAreThere }
    ensures up_writes { UpWritesAreThere }
    ensures callbacks { CallbacksAreThere }
{}

/// Wherever a writer or a callback loads the sync word, the transition that it asks for is defined. Does nothing: its contract is the
/// law.
pub fn a_loaded_word_has_its_transition()
    ensures { TransitionsAreAlwaysDefined }
{}

/// A phase makes its transition by a compare-exchange that finds the number loaded: then it puts the transition of that number, and every
/// other step of it leaves the number as it was. Does nothing: its contract is the law.
pub fn an_exchange_makes_its_transition()
    ensures { ExchangesMakeTransitions }
{}

/// Readers are on the fast path only where the level is open; nobody is after a writer's grace period, which is a whole one, until the
/// state is GP_IDLE again. Does nothing: its contract is the law.
pub fn nobody_is_fast_after_a_grace_period()
    ensures finds_open { FastFindsOpen }
    ensures slow { StaysSlow }
    ensures whole { GracesAreWhole }
{}

/// The state becomes GP_IDLE only by a callback, with a whole grace period after its claim. Does nothing: its contract is the law.
pub fn idle_comes_after_a_whole_grace_period()
    ensures { IdleIsEarned }
{}
