//! The orders of steps of the two, each one gate's after the other's.

ghost use Rattle.std.specs.Prelude.{◌≡◌, true};
ghost use Rattle.percpu_rwsem.specs.declared.readers.DownReadStep.TheVariants.{EntersSection};
ghost use Rattle.composite_ops.specs.declared.write_access.phases.WritePhase.TheVariants.{Takes};
ghost use Rattle.composite_ops.specs.write_access.Phases.{next, after, then_wants, then_gives_back};

use access_model::{Action, Gate, GateError, Next, Reply};
use cpu_words::{Touch, WordName};
use mount_counts::{Want, WantStep};
use percpu_rwsem::{DownRead, UpRead};

/// Where a taking or a return of write access stands between two of its steps: at a phase of the gate that it is at. The level is 1
/// (`SB_FREEZE_WRITE`).
#[derive(Clone, Copy, PartialEq, Eq)]
pub enum WritePhase {
    /// Goes inside the level, and then wants this mount.
    Takes {
        mount: u8,
        read: DownRead,
    },
    /// Wants the mount, inside the level.
    Wants(Want),
    /// Leaves the level, as this mount was refused with this.
    GivesBack {
        mount: u8,
        cpu: u8,
        refusal: GateError,
    },
    /// Gives the mount back, and then leaves the level.
    Drops {
        mount: u8,
        cpu: u8,
    },
    /// Leaves the level.
    Ends {
        cpu: u8,
    },
}

/// The up-read of level 1 on a processor.
#[inline(always)]
fn up_read(cpu: u8) -> UpRead
    ensures { result ≡ record { level = 1; cpu = cpu } }
{
    UpRead { level: 1, cpu }
}

/// What comes after a step at the level: inside it, the mount is wanted, on the same processor.
#[inline(always)]
fn wants_then(mount: u8, cpu: u8, next: Next<DownRead>) -> Next<WritePhase>
    ensures { result ≡ then_wants mount cpu next }
{
    match next {
        Next::Go(read) => Next::Go(WritePhase::Takes { mount, read }),
        Next::Wait(read) => Next::Wait(WritePhase::Takes { mount, read }),
        Next::Done(Ok(_)) => Next::Go(WritePhase::Wants(Want {
            mount,
            cpu,
            wait: true,
            step: WantStep::CountsUp,
        })),
        Next::Done(Err(refusal)) => Next::Done(Err(refusal)),
    }
}

/// What comes after a step at the mount: where it is refused, the level is left, on the same processor.
#[inline(always)]
fn gives_back_then(mount: u8, cpu: u8, next: Next<Want>) -> Next<WritePhase>
    ensures { result ≡ then_gives_back mount cpu next }
{
    match next {
        Next::Go(want) => Next::Go(WritePhase::Wants(want)),
        Next::Wait(want) => Next::Wait(WritePhase::Wants(want)),
        Next::Done(Ok(reply)) => Next::Done(Ok(reply)),
        Next::Done(Err(refusal)) => Next::Go(WritePhase::GivesBack {
            mount,
            cpu,
            refusal,
        }),
    }
}

impl WritePhase {
    /// A taking before its first step: of level 1, where it waits while the level is closed, and then of this mount.
    #[inline(always)]
    pub fn new(mount: u8, cpu: u8, task: u8) -> WritePhase
        ensures { result ≡ Takes mount record { level = 1; cpu = cpu; task = task; wait = true; step = EntersSection } }
    {
        let read = DownRead::new(1, cpu, task, true);
        WritePhase::Takes { mount, read }
    }

    /// The word and the touch of the next step.
    #[inline(always)]
    pub fn next(self) -> (WordName, Touch)
        ensures { result ≡ next self }
    {
        match self {
            WritePhase::Takes { read, .. } => read.next(),
            WritePhase::Wants(want) => want.next(),
            WritePhase::GivesBack { cpu, .. } | WritePhase::Ends { cpu } => up_read(cpu).next(),
            WritePhase::Drops { mount, cpu } => (WordName::MountCount(mount, cpu), Touch::Sub(1)),
        }
    }

    /// What comes after the step, which found this, and the action that the step adds.
    #[inline(always)]
    pub fn after(self, found: u64) -> (Next<WritePhase>, Option<Action>)
        ensures { result ≡ after self found }
    {
        let left = Some(Action::Return(Gate::Level(1)));
        match self {
            WritePhase::Takes { mount, read } => {
                let (next, action) = read.after(found);
                (wants_then(mount, read.cpu, next), action)
            }
            WritePhase::Wants(want) => {
                let (next, action) = want.after(found);
                (gives_back_then(want.mount, want.cpu, next), action)
            }
            WritePhase::GivesBack { refusal, .. } => (Next::Done(Err(refusal)), left),
            WritePhase::Drops { mount, cpu } => (
                Next::Go(WritePhase::Ends { cpu }),
                Some(Action::Return(Gate::Mount(mount))),
            ),
            WritePhase::Ends { .. } => (Next::Done(Ok(Reply::Unit)), left),
        }
    }
}
