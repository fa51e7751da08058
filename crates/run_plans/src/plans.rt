//! What a run is asked for.

ghost use Rattle.std.specs.Prelude.{◌≡◌, ◌≤◌, ◌-◌, IfErr, IfOk, None, OnOk};
ghost use Rattle.access_model.specs.declared.errors.GateError.TheVariants.{Invalid};
ghost use Rattle.run_plans.specs.Plans.{MayRun, processor_of, run_config};

use access_model::GateError;
use gate_world::Config;

/// The mount at which all meet.
pub const MOUNT: u8 = 0;

/// The number of the first task that writes.
pub const FIRST_WRITER: u8 = 2;

/// What a run is asked for, within its limits: 3 to 64 tasks, 1 to 64 processors, 1 to 10,000 rounds, and at most 1,000 freezes. A freeze waits for
/// who is inside a level as long as it takes, unless the plan has a patience (`with_patience`).
#[derive(Clone, Copy)]
pub struct Plan {
    tasks: u8,
    processors: u8,
    rounds: u32,
    freezes: u32,
    patience: Option<u32>,
    ghost within: { MayRun tasks processors rounds freezes },
}

impl Plan {
    /// Returns a plan of these numbers, whose freezes wait as long as it takes.
    ///
    /// # Errors
    ///
    /// Invalid exactly if a number is out of its limits.
    pub fn new(tasks: u8, processors: u8, rounds: u32, freezes: u32) -> Result<Plan, GateError>
        ensures asked { IfOk result
            (λ p. (p.tasks ≡ tasks) × (p.processors ≡ processors) × (p.rounds ≡ rounds) × (p.freezes ≡ freezes)) }
        ensures patience { IfOk result (λ p. p.patience ≡ None) }
        ensures within { OnOk result (MayRun tasks processors rounds freezes) }
        ensures refused { IfErr result (λ e. (e ≡ Invalid) × ¬ MayRun tasks processors rounds freezes) }
    {
        if (3..=64).contains(&tasks)
            && (1..=64).contains(&processors)
            && (1..=10_000).contains(&rounds)
            && freezes <= 1_000
        {
            Ok(Plan {
                tasks,
                processors,
                rounds,
                freezes,
                patience: None,
            })
        } else {
            Err(GateError::Invalid)
        }
    }

    /// Returns this plan with another patience: how often a freeze that finds somebody inside a level looks again, at all levels together, before it
    /// gives up. With 0 it gives up at the first look that finds somebody; with None it waits as long as it takes.
    pub fn with_patience(self, patience: Option<u32>) -> Plan
        ensures asked { (result.tasks ≡ self.tasks) × (result.processors ≡ self.processors) × (result.rounds ≡ self.rounds) × (result.freezes ≡ self.freezes) }
        ensures patience { result.patience ≡ patience }
    {
        let Plan {
            tasks,
            processors,
            rounds,
            freezes,
            ..
        } = self;
        Plan {
            tasks,
            processors,
            rounds,
            freezes,
            patience,
        }
    }

    /// How many rounds each writer and the remounter do.
    pub fn rounds(self) -> u32
        ensures { result ≡ self.rounds }
    {
        self.rounds
    }

    /// How often its backup freezes, or gives a freeze up.
    pub fn freezes(self) -> u32
        ensures { result ≡ self.freezes }
    {
        self.freezes
    }

    /// How often a freeze looks again before it gives up; None if it waits as long as it takes.
    pub fn patience(self) -> Option<u32>
        ensures { result ≡ self.patience }
    {
        self.patience
    }

    /// How many of its tasks write.
    pub fn writers(self) -> u8
        ensures { result ≡ self.tasks - 2 }
    {
        self.tasks - FIRST_WRITER
    }

    /// One mount, a file for each writer beside the root, and room for a block of each writer in each round.
    pub fn config(self) -> Config
        ensures { result ≡ run_config self.tasks self.processors self.rounds }
    {
        Config {
            tasks: self.tasks,
            processors: self.processors,
            mounts: 1,
            nodes: self.tasks - 1,
            capacity: u32::from(self.writers()) * self.rounds,
        }
    }

    /// The processor on which a writer, the first being 0, begins a round. It goes on to the next in each.
    pub fn processor(self, writer: u8, round: u32) -> u8
        requires { round ≤ 10000 }
        ensures { result ≡ processor_of self.processors writer round }
    {
        ((u32::from(writer) + round) % u32::from(self.processors)) as u8
    }
}
