//! What the tasks of a run met on their way, counted. Each task counts for itself, and its counts are added up once it has ended.

ghost use Rattle.std.specs.Prelude.{◌≡◌, ◌*◌, ◌≤◌, ◌<◌, ℕ};
ghost use Rattle.run_plans.specs.Counts.{all_waits, both, counted, no_copies, no_remounts, no_writes, sizes_with, with_round, with_try};

/// What a run has done.
#[derive(Clone, Copy, PartialEq, Eq, Debug)]
pub struct Totals {
    /// The blocks that all files have in the end.
    pub grown: u64,
    /// How often the file system was frozen and thawed.
    pub frozen: u64,
    /// How often a freeze gave up; None in a run whose freezes wait as long as it takes.
    pub gave_up: Option<u64>,
    /// How many snapshots were sound and clean.
    pub snapshots: u64,
    /// How often the mount was made read-only, or was busy, and then writable.
    pub remounts: u64,
    /// The wrapping sum of all count words in the end: the accesses that were never given back.
    pub held: u64,
}

/// What a writer has met in its rounds, or several together. Each number stands still at 2^64 - 1.
#[derive(Clone, Copy)]
pub struct Writes {
    /// How often write access was granted.
    pub granted: u64,
    /// How often it was refused as ReadOnly before.
    pub read_only: u64,
    /// How often a growth was refused as Again, before it was done.
    pub again: u64,
    /// How often its calls for write access came to a wait, refused ones too.
    pub waits: u64,
}

impl Writes {
    pub fn none() -> Writes
        ensures { result ≡ no_writes }
    {
        Writes {
            granted: 0,
            read_only: 0,
            again: 0,
            waits: 0,
        }
    }

    /// A round more, in which the access and the growth were refused so often before they were done, and after which so many waits are
    /// counted.
    pub fn with_round(self, read_only: u64, again: u64, waits: u64) -> Writes
        ensures { (denied raced : ℕ) → read_only ≡ counted denied → again ≡ counted raced → result ≡ with_round denied raced waits self }
    {
        Writes {
            granted: self.granted.saturating_add(1),
            read_only: self.read_only.saturating_add(read_only),
            again: self.again.saturating_add(again),
            waits,
        }
    }

    /// Those of two together.
    pub fn and(self, other: Writes) -> Writes
        ensures { result ≡ both self other }
    {
        Writes {
            granted: self.granted.saturating_add(other.granted),
            read_only: self.read_only.saturating_add(other.read_only),
            again: self.again.saturating_add(other.again),
            waits: self.waits.saturating_add(other.waits),
        }
    }
}

/// What the changes of the mount have met.
#[derive(Clone, Copy)]
pub struct Remounts {
    /// How often the mount was busy when it was to be made read-only.
    pub busy: u32,
    /// How often the changes came to a wait; it stands still at 2^64 - 1.
    pub waits: u64,
}

impl Remounts {
    pub fn none() -> Remounts
        ensures { result ≡ no_remounts }
    {
        Remounts { busy: 0, waits: 0 }
    }
}

/// The blocks of the smallest and of the largest snapshot.
#[derive(Clone, Copy)]
pub struct Sizes {
    pub least: u64,
    pub most: u64,
}

/// The sizes with one more snapshot's.
fn sizes_and(sizes: Option<Sizes>, blocks: u64) -> Option<Sizes>
    ensures { result ≡ sizes_with blocks sizes }
{
    let Some(Sizes { least, most }) = sizes else {
        return Some(Sizes {
            least: blocks,
            most: blocks,
        });
    };
    Some(Sizes {
        least: least.min(blocks),
        most: most.max(blocks),
    })
}

/// How a round of a backup begins.
#[derive(Clone, Copy)]
pub enum Tried {
    /// The file system was frozen, copied and thawed. The blocks of its snapshot, if that was sound and clean.
    Copied(Option<u64>),
    /// The freeze gave up.
    GaveUp,
}

/// What a backup has done and met.
#[derive(Clone, Copy)]
pub struct Copies {
    /// How often the file system was frozen and thawed.
    pub frozen: u32,
    /// How often a freeze gave up.
    pub gave_up: u32,
    /// How many snapshots were sound and clean.
    pub snapshots: u32,
    /// How many callbacks ran.
    pub callbacks: u32,
    /// How often its calls came to a wait; it stands still at 2^64 - 1.
    pub waits: u64,
    /// The sizes of the snapshots; None where there was none.
    pub sizes: Option<Sizes>,
}

impl Copies {
    pub fn none() -> Copies
        ensures { result ≡ no_copies }
    {
        Copies {
            frozen: 0,
            gave_up: 0,
            snapshots: 0,
            callbacks: 0,
            waits: 0,
            sizes: None,
        }
    }

    /// Returns these with a round more, which began so, in which so many callbacks ran, and after which so many waits are counted.
    pub fn with_try(self, tried: Tried, ran: u32, waits: u64) -> Copies
        requires frozen { self.frozen < 1000 }
        requires gave_up { self.gave_up < 1000 }
        requires snapshots { self.snapshots < 1000 }
        requires callbacks { self.callbacks ≤ 3000 }
        requires ran { ran ≤ 3 }
        ensures { result ≡ with_try tried ran waits self }
    {
        let so_far = Copies {
            callbacks: self.callbacks + ran,
            waits,
            ..self
        };
        match tried {
            Tried::Copied(Some(blocks)) => Copies {
                frozen: self.frozen + 1,
                snapshots: self.snapshots + 1,
                sizes: sizes_and(self.sizes, blocks),
                ..so_far
            },
            Tried::Copied(None) => Copies {
                frozen: self.frozen + 1,
                ..so_far
            },
            Tried::GaveUp => Copies {
                gave_up: self.gave_up + 1,
                ..so_far
            },
        }
    }
}

/// What the tasks of a run met on their way.
#[derive(Clone, Copy)]
pub struct Details {
    /// What all writers met.
    pub writes: Writes,
    /// How often the mount was busy when it was to be made read-only.
    pub busy: u32,
    /// How often the changes of the mount came to a wait; it stands still at 2^64 - 1.
    pub remount_waits: u64,
    /// What the backup did and met.
    pub copies: Copies,
}

impl Details {
    /// How often all these calls came to a wait. It stands still at 2^64 - 1.
    pub fn waits(&self) -> u64
        ensures { result ≡ all_waits self.now }
    {
        let own = self.writes.waits.saturating_add(self.remount_waits);
        own.saturating_add(self.copies.waits)
    }
}
