//! What a freeze, a thaw or a remount asks of the file system.

/// The hooks of a file system. Each answers Ok, or Err with the code of its failure, 0 to 65,535; the call that asked it ends with
/// `GateError::Hook` of that code, of 0, too. Nothing is promised of what a hook does but what its file system says in `answers`.
pub trait FsHooks {
    ghost use Rattle.cpu_words.specs.Hooks.{HookAnswer};
    ghost use Rattle.freeze_levels.specs.declared.hooks.HookCall.{HookCall as HookCallType};
    ghost use Rattle.freeze_levels.specs.declared.hooks.HookCall.TheVariants.{Sync, FreezeFs, UnfreezeFs, Reconfigure, KeepWaiting};

    /// What a hook that is asked may answer, and what the file system may be then. One that says nothing of it may answer anything.
    ghost answers: { HookCallType → Self → HookAnswer → Self → Type 0 } = { λ _ _ _ _. Unit {0} };

    /// Writes all that is dirty (`sync_filesystem`).
    fn sync(&mut self) -> Result<(), u16>
        ensures { answers Sync self.old result self.new };

    /// The file system's own part of a freeze (`freeze_fs`).
    fn freeze_fs(&mut self) -> Result<(), u16>
        ensures { answers FreezeFs self.old result self.new };

    /// The file system's own part of a thaw (`unfreeze_fs`).
    fn unfreeze_fs(&mut self) -> Result<(), u16>
        ensures { answers UnfreezeFs self.old result self.new };

    /// The file system's own part of a remount, to read-only or to writable (`reconfigure`).
    fn reconfigure(&mut self, read_only: bool) -> Result<(), u16>
        ensures { answers (Reconfigure read_only) self.old result self.new };

    /// Whether a freeze that has found somebody inside this level, 1 to 3, goes on waiting. It is asked after each sum that finds
    /// somebody. After an Err the freeze gives up: it reopens what it has closed, and ends with `GateError::Hook` of that code.
    fn keep_waiting(&mut self, level: u8) -> Result<(), u16>
        ensures { answers (KeepWaiting level) self.old result self.new };
}

/// A file system of which nothing is to be done: each hook answers Ok.
impl FsHooks for () {
    ghost use Rattle.std.specs.Prelude.{◌≡◌, Ok};

    ghost answers = { λ call old answer new. answer ≡ Ok tt };

    fn sync(&mut self) -> Result<(), u16> {
        Ok(())
    }

    fn freeze_fs(&mut self) -> Result<(), u16> {
        Ok(())
    }

    fn unfreeze_fs(&mut self) -> Result<(), u16> {
        Ok(())
    }

    fn reconfigure(&mut self, read_only: bool) -> Result<(), u16> {
        let _ = read_only;
        Ok(())
    }

    fn keep_waiting(&mut self, level: u8) -> Result<(), u16> {
        let _ = level;
        Ok(())
    }
}

/// Which hook a step reads the answer of.
#[derive(Clone, Copy, PartialEq, Eq, Debug)]
pub enum HookKind {
    /// `FsHooks::sync`.
    Sync,
    /// `FsHooks::freeze_fs`.
    FreezeFs,
    /// `FsHooks::unfreeze_fs`.
    UnfreezeFs,
    /// `FsHooks::reconfigure`.
    Reconfigure,
    /// `FsHooks::keep_waiting`.
    KeepWaiting,
}

/// A hook with what it is asked.
#[derive(Clone, Copy, PartialEq, Eq, Debug)]
pub enum HookCall {
    /// `FsHooks::sync`.
    Sync,
    /// `FsHooks::freeze_fs`.
    FreezeFs,
    /// `FsHooks::unfreeze_fs`.
    UnfreezeFs,
    /// `FsHooks::reconfigure`.
    Reconfigure { read_only: bool },
    /// `FsHooks::keep_waiting`.
    KeepWaiting { level: u8 },
}

impl HookCall {
    /// Asks this hook.
    pub fn ask<H: FsHooks>(self, hooks: &mut H) -> Result<(), u16>
        ensures { H.answers self hooks.old result hooks.new }
    {
        match self {
            HookCall::Sync => hooks.sync(),
            HookCall::FreezeFs => hooks.freeze_fs(),
            HookCall::UnfreezeFs => hooks.unfreeze_fs(),
            HookCall::Reconfigure { read_only } => hooks.reconfigure(read_only),
            HookCall::KeepWaiting { level } => hooks.keep_waiting(level),
        }
    }
}
