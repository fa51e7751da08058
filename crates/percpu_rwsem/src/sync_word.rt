//! The word of a level's `rcu_sync`: its state, whether its callback is taken, and how many writers have entered it.

ghost use Rattle.std.specs.Prelude.{◌≡◌, IfSome};
ghost use Rattle.percpu_rwsem.specs.SyncWords.{state_number, state_of, is_lawful, IsLawful, pack, unpack};
ghost use Rattle.percpu_rwsem.specs.SyncWords.{on_enter, on_exit, on_claim, on_callback};

// What the number of a word has for a callback that is taken, and for each writer that has entered. The state is below both.
const TAKEN: u64 = 8;

const WRITER: u64 = 256;

/// The state of an `rcu_sync` (`gp_state`).
#[derive(Clone, Copy, PartialEq, Eq)]
pub enum GpState {
    /// GP_IDLE: readers take the fast path.
    Idle,
    /// GP_ENTER: the first writer waits for a grace period.
    Enter,
    /// GP_PASSED: readers take the slow path, as in the states that follow.
    Passed,
    /// GP_EXIT: the last writer that was in has left, and its callback is queued or taken.
    Exit,
    /// GP_REPLAY: another one was in and has left since, so another callback is to follow that one.
    Replay,
}

/// What the word of an `rcu_sync` says (`struct rcu_sync`).
#[derive(Clone, Copy, PartialEq, Eq)]
pub struct SyncWord {
    pub state: GpState,
    /// A task has taken the callback that was queued.
    pub taken: bool,
    /// The writers that have entered and not left (0 to 65,535).
    pub count: u16,
}

impl GpState {
    /// The kernel's number of the state.
    #[inline(always)]
    fn number(self) -> u64
        ensures { result ≡ state_number self }
    {
        match self {
            GpState::Idle => 0,
            GpState::Enter => 1,
            GpState::Passed => 2,
            GpState::Exit => 3,
            GpState::Replay => 4,
        }
    }

    /// The state of that number.
    #[inline(always)]
    fn of_number(number: u64) -> Option<GpState>
        ensures { result ≡ state_of number }
    {
        match number {
            0 => Some(GpState::Idle),
            1 => Some(GpState::Enter),
            2 => Some(GpState::Passed),
            3 => Some(GpState::Exit),
            4 => Some(GpState::Replay),
            _ => None,
        }
    }
}

impl SyncWord {
    /// Whether there may be such a word: nobody has entered GP_IDLE, somebody GP_ENTER and GP_PASSED, and a callback is taken only
    /// where one was queued.
    #[inline(always)]
    pub fn is_lawful(self) -> bool
        ensures { result ≡ is_lawful self.state self.taken self.count }
    {
        match self.state {
            GpState::Idle => !self.taken && self.count == 0,
            GpState::Enter | GpState::Passed => !self.taken && self.count > 0,
            GpState::Exit | GpState::Replay => true,
        }
    }

    /// The word as the number that it is in memory: the state, 8 where the callback is taken, and 256 for each writer. A lawful
    /// word is found again in its number.
    #[inline(always)]
    pub fn pack(self) -> u64
        ensures number { result ≡ pack self }
        ensures found_again { IsLawful self → unpack result ≡ Some self }
    {
        self.state.number() + TAKEN * u64::from(self.taken) + WRITER * u64::from(self.count)
    }

    /// What a number says, which is a lawful word and has just this number. None where a bit from 4 to 7 or above 23 is set, where the
    /// state is above 4, or where there may be no such word.
    #[inline(always)]
    pub fn unpack(number: u64) -> Option<SyncWord>
        ensures word { result ≡ unpack number }
        ensures same { IfSome result (λ w. pack w ≡ number) }
        ensures lawful { IfSome result IsLawful }
    {
        let between = number / 16 % 16;
        let count = u16::try_from(number / WRITER).ok()?;
        let word = SyncWord {
            state: GpState::of_number(number % 8)?,
            taken: number / TAKEN % 2 == 1,
            count,
        };
        (between == 0 && word.is_lawful()).then_some(word)
    }

    /// A writer enters (`rcu_sync_enter`): GP_IDLE becomes GP_ENTER. None where 65,535 have entered. It leaves a lawful word lawful, as
    /// the other three do.
    #[inline(always)]
    pub fn on_enter(self) -> Option<SyncWord>
        ensures word { result ≡ on_enter self }
        ensures lawful { IsLawful self → IfSome result IsLawful }
    {
        let count = self.count.checked_add(1)?;
        let state = match self.state {
            GpState::Idle => GpState::Enter,
            state => state,
        };
        Some(SyncWord {
            state,
            count,
            ..self
        })
    }

    /// A writer leaves (`rcu_sync_exit`): the last one queues a callback, or another one after the one that is under way. None where
    /// nobody has entered, and in GP_IDLE and GP_ENTER.
    #[inline(always)]
    pub fn on_exit(self) -> Option<SyncWord>
        ensures word { result ≡ on_exit self }
        ensures lawful { IsLawful self → IfSome result IsLawful }
    {
        let count = self.count.checked_sub(1)?;
        let state = match self.state {
            GpState::Idle | GpState::Enter => return None,
            state if count > 0 => state,
            GpState::Passed => GpState::Exit,
            GpState::Exit | GpState::Replay => GpState::Replay,
        };
        Some(SyncWord {
            state,
            count,
            ..self
        })
    }

    /// A task takes the callback that is queued (`call_rcu` in `rcu_sync_call`). None where none is.
    #[inline(always)]
    pub fn on_claim(self) -> Option<SyncWord>
        ensures word { result ≡ on_claim self }
        ensures lawful { IsLawful self → IfSome result IsLawful }
    {
        match self.state {
            GpState::Exit | GpState::Replay if !self.taken => Some(SyncWord {
                taken: true,
                ..self
            }),
            _ => None,
        }
    }

    /// A grace period has ended (`rcu_sync_func`), that of the writer that found GP_IDLE or that of a callback that is taken: GP_PASSED
    /// where a writer is in; else GP_REPLAY queues the other callback, and GP_ENTER and GP_EXIT become GP_IDLE. None where neither
    /// waits.
    #[inline(always)]
    pub fn on_callback(self) -> Option<SyncWord>
        ensures word { result ≡ on_callback self }
        ensures lawful { IsLawful self → IfSome result IsLawful }
    {
        let waits = match self.state {
            GpState::Idle | GpState::Passed => false,
            GpState::Enter => true,
            GpState::Exit | GpState::Replay => self.taken,
        };
        if !waits {
            return None;
        }
        let state = match self.state {
            _ if self.count > 0 => GpState::Passed,
            GpState::Replay => GpState::Exit,
            _ => GpState::Idle,
        };
        Some(SyncWord {
            state,
            taken: false,
            ..self
        })
    }
}
