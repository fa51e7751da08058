//! Gates, nodes, holders of a freeze and the actions of the model.

ghost use Rattle.std.specs.Prelude.{◌≡◌, true, false};
ghost use Rattle.access_model.specs.Holders.{nobody, held_by, with_holder, is_unheld};

/// Where writers are counted: the mount of a number from 0 (the writer count of `struct mount`), or the freeze level 1, 2
/// or 3 (one semaphore of `sb_writers`: writes, page faults, internal work).
#[derive(Clone, Copy, PartialEq, Eq, Debug)]
pub enum Gate {
    Mount(u8),
    Level(u8),
}

/// What a node of the tree is. Only files have a size or a dirty mark.
#[derive(Clone, Copy, PartialEq, Eq, Debug)]
pub enum Kind {
    File,
    Dir,
}

/// A node of the tree: its parent's number (0 to 63; the root's is its own, 0), its size in blocks, and whether it was
/// changed since it was last written back. A file may be removed while tasks have it open: it keeps its node and its blocks until the
/// last of them closes it.
#[derive(Clone, Copy, PartialEq, Eq, Debug)]
pub struct NodeInfo {
    pub kind: Kind,
    pub parent: u8,
    pub size: u32,
    pub dirty: bool,
    pub removed: bool,
}

/// Who may hold a freeze: the kernel, as for a suspend, or user space, as for a backup. The superblock stays frozen until neither does.
#[derive(Clone, Copy, PartialEq, Eq, Debug)]
pub enum Holder {
    Kernel,
    User,
}

/// Which holders hold a freeze.
#[derive(Clone, Copy, PartialEq, Eq)]
pub struct Holders {
    pub kernel: bool,
    pub user: bool,
}

impl Holders {
    /// No freeze is held.
    #[inline(always)]
    pub fn none() -> Holders
        ensures { result ≡ nobody }
    {
        Holders {
            kernel: false,
            user: false,
        }
    }

    /// Whether this one holds a freeze.
    #[inline(always)]
    pub fn has(self, holder: Holder) -> bool
        ensures { result ≡ held_by self holder }
    {
        match holder {
            Holder::Kernel => self.kernel,
            Holder::User => self.user,
        }
    }

    /// Returns these holders and this one, if it was not among them.
    #[inline(always)]
    pub fn with(self, holder: Holder) -> Holders
        ensures { result ≡ with_holder holder true self }
    {
        match holder {
            Holder::Kernel => Holders {
                kernel: true,
                ..self
            },
            Holder::User => Holders { user: true, ..self },
        }
    }

    /// Returns these holders but for this one.
    #[inline(always)]
    pub fn without(self, holder: Holder) -> Holders
        ensures { result ≡ with_holder holder false self }
    {
        match holder {
            Holder::Kernel => Holders {
                kernel: false,
                ..self
            },
            Holder::User => Holders {
                user: false,
                ..self
            },
        }
    }

    /// Whether no freeze is held.
    #[inline(always)]
    pub fn is_none(self) -> bool
        ensures { result ≡ is_unheld self }
    {
        !self.kernel && !self.user
    }
}

/// A step of the model, done by one task.
#[derive(Clone, Copy)]
pub enum Action {
    /// The task gets an access at the gate, as by `mnt_get_write_access` or `sb_start_write`.
    Grant(Gate),
    /// The task gives an access at the gate back, as by `mnt_put_write_access` or `sb_end_write`.
    Return(Gate),
    /// The mount of that number is made read-only by its own flag, as by `mnt_make_readonly`.
    MountRo(u8),
    /// The mount's own flag is cleared.
    MountRw(u8),
    /// The superblock is made read-only (`SB_RDONLY`), after a look as that of `sb_prepare_remount_readonly`.
    SbRo,
    /// The superblock is made writable.
    SbRw,
    /// The stage of the freeze, `s_writers.frozen`, becomes 0 to 4 (`SB_UNFROZEN` to `SB_FREEZE_COMPLETE`).
    Stage(u8),
    /// A holder's freeze begins to stand, at stage 4.
    Hold(Holder),
    /// A holder's freeze is given back, at stage 4.
    Leave(Holder),
    /// A freeze has closed level 1, 2 or 3, and nobody is inside, as when `sb_wait_write` returns.
    Pass(u8),
    /// A level that was passed is open again.
    Reopen(u8),
    /// A free node becomes an empty file or a directory.
    Create { node: u8, dir: u8, kind: Kind },
    /// A file's node becomes free; where some task has the file open, it is removed in name alone, and clean.
    Remove(u8),
    /// A file gets larger by this many blocks, and dirty.
    Grow { node: u8, blocks: u32 },
    /// A file gets another parent.
    MoveTo { node: u8, dir: u8 },
    /// A file becomes dirty, by a page fault.
    Dirty(u8),
    /// A file becomes clean, as it is written back.
    Clean(u8),
    /// The task opens a file.
    Open(u8),
    /// The task closes a file. Where it was removed and nobody else has it open, its node becomes free.
    Close(u8),
}
