//! The one rule of the table, and the one play of its steps.

use crate::seating::Knowledge;
use atomic_table::{Join, Play, Split, TableRule};
use gate_world::Config;
use std::marker::{Brand, PhantomData};

/// The invariant of the table: the invariant of words and views, one history, and numbers that are dealt.
pub struct TableInvariant;

impl TableRule<(), Knowledge, Config> for TableInvariant {
    ghost use Rattle.gate_steps.specs.Rules.{TableInvariantHolds, first_known};

    ghost holds = { λ c s. TableInvariantHolds c s.words s.views };

    ghost first = { first_known };
}

/// The config of the table, the operation that begins with a step, the phase that the step is of, and the hook's answer that
/// it reads. Each call picks them.
pub trait StepInputs {
    ghost use Rattle.std.specs.Prelude.{Option};
    ghost use Rattle.cpu_words.specs.Hooks.{HookAnswer};
    ghost use Rattle.gate_world.specs.declared.config.Config.{Config as ConfigType};
    ghost use Rattle.gate_world.specs.declared.operations.Op.{Op as OpType};
    ghost use Rattle.gate_world.specs.declared.work.Phase.{Phase as PhaseType};

    ghost config: { ConfigType };

    ghost begins: { Option OpType };

    ghost phase: { PhaseType };

    ghost hook: { HookAnswer };
}

impl StepInputs for Brand {
    ghost use Rattle.std.specs.Prelude.{None, Ok};
    ghost use Rattle.gate_world.specs.declared.work.Phase.TheVariants.{Mounts};
    ghost use Rattle.mount_counts.specs.declared.phases.MountPhase.TheVariants.{Drop as Drops};

    ghost config = { record { tasks = 0; processors = 0; mounts = 0; nodes = 0; capacity = 0 } };

    ghost begins = { None };

    ghost phase = { Mounts (Drops 0 0) };

    ghost hook = { Ok tt };
}

/// The step is the step of these inputs.
pub struct StepPlay<J> {
    of: PhantomData<J>,
}

impl<J: StepInputs> Play<(), Knowledge> for StepPlay<J> {
    ghost use Rattle.gate_steps.specs.Seating.{happened};

    ghost then = { λ s me found after. happened J.config J.begins J.phase J.hook me found after };
}

/// The number that a seat gives. Each call picks it.
pub trait Given {
    ghost use Rattle.std.specs.Prelude.{ℕ};

    ghost number: { ℕ };
}

impl Given for Brand {
    ghost number = { 0 };
}

/// A seat is cut in two: what it keeps, and the number that it gives.
pub struct Gives<J> {
    of: PhantomData<J>,
}

impl<J: Given> Split<Knowledge> for Gives<J> {
    ghost use Rattle.gate_steps.specs.Seating.{known_kept, known_given};

    ghost left = { known_kept J.number };

    ghost right = { known_given J.number };
}

/// All numbers of the joined seat come back.
pub struct TakesBack;

impl Join<Knowledge> for TakesBack {
    ghost use Rattle.std.specs.Prelude.{[]};
    ghost use Rattle.gate_steps.specs.Seating.{knows, known_both};

    ghost both = { known_both };

    ghost spent = { knows [] [] };
}

/// A load that is no task's step. It tells its seat the state of that moment, under the config of these inputs.
pub struct LookPlay<J> {
    of: PhantomData<J>,
}

impl<J: StepInputs> Play<(), Knowledge> for LookPlay<J> {
    ghost use Rattle.gate_steps.specs.Meetings.{looked};

    ghost then = { λ s me found after. looked J.config me after };
}

/// How the numbers of a seat are divided: those that it keeps, and those that a new seat gets. Each call picks them.
pub trait Divided {
    ghost use Rattle.gate_steps.specs.Seating.{DealtNumbers};

    ghost mine: { DealtNumbers };

    ghost others: { DealtNumbers };
}

impl Divided for Brand {
    ghost use Rattle.std.specs.Prelude.{[]};

    ghost mine = { [] };

    ghost others = { [] };
}

/// A seat is cut in two: it keeps the first of its numbers, and a new seat has the others. Both have seen what it had.
pub struct Divides<J> {
    of: PhantomData<J>,
}

impl<J: Divided> Split<Knowledge> for Divides<J> {
    ghost use Rattle.gate_steps.specs.Seating.{knows};

    ghost left = { λ k. knows J.mine k.seen };

    ghost right = { λ k. knows J.others k.seen };
}
