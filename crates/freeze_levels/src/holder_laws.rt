//! The laws of those who hold a freeze: the word of the holders beside the stage, over plain numbers and what each task is doing with them.
//! It has no code: its functions state laws.

ghost use Rattle.std.specs.Prelude.{ℕ};
ghost use Rattle.freeze_levels.specs.holder_laws.Events.{HoldsAt};
ghost use Rattle.freeze_levels.specs.holder_laws.Laws.{opening, EventsKeep, HeldExactly, RolesTell};

/// What holds of the holders holds at the beginning, and each step keeps it. Does nothing: its contract is the law.
pub fn each_event_keeps_the_holders()
    ensures begins { (tasks : ℕ) → HoldsAt tasks opening }
    ensures keeps { EventsKeep }
{}

/// Some freeze is held exactly at stage 4 where nobody is between two stores; and each task that relies on the holders finds them as it
/// does. Does nothing: its contract is the law.
pub fn the_holders_tell()
    ensures exactly { HeldExactly }
    ensures roles { RolesTell }
{}
