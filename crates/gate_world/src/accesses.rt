//! What a task holds at run time.

ghost use Rattle.std.specs.Prelude.{◌≡◌, ◌≤◌};
ghost use Rattle.gate_world.specs.Operations.{holds_none, holds_none_from, some_mount};
ghost use Rattle.gate_world.specs.Fits.{ActionFits};
ghost use Rattle.gate_world.specs.Accesses.{no_accesses, held_in, accesses_after};

use access_model::{Action, Gate};

/// What a task holds: accesses at each mount, whether it is inside each level, and which files it has open. Levels are numbered from 1, so the first
/// entry of these stays false.
#[derive(Clone, Copy, PartialEq, Eq, Debug)]
pub struct Accesses {
    pub mounts: [u16; 8],
    pub levels: [bool; 4],
    pub files: [bool; 64],
}

impl Accesses {
    /// No access.
    pub fn none() -> Accesses
        ensures { result ≡ no_accesses }
    {
        Accesses {
            mounts: [0; 8],
            levels: [false; 4],
            files: [false; 64],
        }
    }

    /// Does to these what an action of the task itself does.
    #[inline(always)]
    pub fn apply(&mut self, action: Option<Action>)
        requires { ActionFits (held_in self.old) action }
        ensures { self.new ≡ accesses_after self.old action }
    {
        match action {
            Some(Action::Grant(Gate::Mount(mount))) => self.mounts[mount as usize] += 1,
            Some(Action::Return(Gate::Mount(mount))) => self.mounts[mount as usize] -= 1,
            Some(Action::Grant(Gate::Level(level))) => self.levels[level as usize] = true,
            Some(Action::Return(Gate::Level(level))) => self.levels[level as usize] = false,
            Some(Action::Open(file)) => self.files[file as usize] = true,
            Some(Action::Close(file)) => self.files[file as usize] = false,
            _ => {}
        }
    }

    /// What the task holds after an action of its own.
    pub fn after(self, action: Option<Action>) -> Accesses
        requires { ActionFits (held_in self) action }
        ensures { result ≡ accesses_after self action }
    {
        let mut after = self;
        after.apply(action);
        after
    }

    /// Whether the task is inside no level.
    #[inline(always)]
    pub fn is_in_no_level(&self) -> bool
        ensures { result ≡ holds_none (held_in self.now).levels }
    {
        !self.levels[1] && !self.levels[2] && !self.levels[3]
    }

    /// Whether the task is inside no level from this one up.
    #[inline(always)]
    pub fn is_in_none_from(&self, level: u8) -> bool
        ensures { result ≡ holds_none_from level (held_in self.now).levels }
    {
        (level > 1 || !self.levels[1])
            && (level > 2 || !self.levels[2])
            && (level > 3 || !self.levels[3])
    }

    /// Whether the task holds an access at one of so many mounts.
    pub fn holds_some_mount(&self, mounts: u8) -> bool
        requires { mounts ≤ 8 }
        ensures { result ≡ some_mount mounts (held_in self.now).mounts }
    {
        let mut some = false;
        for mount in 0..mounts {
            some = some || self.mounts[mount as usize] > 0;
        }
        some
    }
}
