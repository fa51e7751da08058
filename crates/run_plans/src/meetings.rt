//! What is done at a run beside its calls.

/// What is done at a run beside its calls, for tests that look on. A call of it has the gates as they stand at that moment.
pub trait Meeting {
    ghost use Rattle.std.specs.Prelude.{ℕ};

    /// What a call of `holding` by this task in this round shows. Nothing, unless it is written.
    ghost held: { Self → ℕ → ℕ → Type 0 } = { λ _ _ _. Unit {0} };

    /// Called by each writer in each round (the number of its task, 2 to 63, and the round, from 0), while it holds write access.
    fn holding(&self, task: u8, round: u32)
        ensures { held self.now task round };
}

/// A meeting at which nothing is done.
impl Meeting for () {
    fn holding(&self, _task: u8, _round: u32) {}
}

/// Looks at a run. It is called by each writer while it holds its access, as a `Meeting` is, and by the backup at each freeze: so a program can
/// tell how far a run is. Each `Meeting` is a `RunObserver` at whose freezes nothing is done.
pub trait RunObserver {
    ghost use Rattle.std.specs.Prelude.{ℕ};

    /// What a call of `holding` by this task in this round shows. Nothing, unless it is written.
    ghost held: { Self → ℕ → ℕ → Type 0 } = { λ _ _ _. Unit {0} };

    /// What a call of `frozen` at this freeze shows. Nothing, unless it is written.
    ghost seen: { Self → ℕ → Type 0 } = { λ _ _. Unit {0} };

    /// Called as that of a `Meeting`.
    fn holding(&self, task: u8, round: u32)
        ensures { held self.now task round };

    /// Called by the backup at each freeze (from 0), between its snapshot and its thaw, while all is frozen.
    fn frozen(&self, freeze: u32)
        ensures { seen self.now freeze };
}

impl<M: Meeting> RunObserver for M {
    ghost held = { λ it. M.held it };

    fn holding(&self, task: u8, round: u32) {
        Meeting::holding(self, task, round);
    }

    fn frozen(&self, _freeze: u32) {}
}
