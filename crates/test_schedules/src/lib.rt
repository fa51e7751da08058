//! Worked executions: what the definitions give for executions that were written out by hand, by computing, and states that a clause of the
//! theorem refuses. They stand in proofs/.
#![tactic(auto)]

ghost use Rattle.std.specs.Prelude.{◌≡◌};
ghost use Rattle.gate_world.specs.Worlds.{run, opening};
ghost use Rattle.test_schedules.specs.Schedules.{small, moves};

/// A count from which an access is given back that was taken on another processor wraps below 0. Does nothing: its contract is the law.
pub fn a_count_wraps_below_zero()
    ensures { (run small opening moves).words.count 0 1 ≡ 18446744073709551615 }
{}
