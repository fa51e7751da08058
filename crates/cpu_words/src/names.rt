//! The names of the words, and where each lies.

ghost use Rattle.std.specs.Prelude.{◌≡◌, ◌<◌};
ghost use Rattle.cpu_words.specs.declared.names.WordName.{WordName as WordNameType};
ghost use Rattle.cpu_words.specs.Names.{IsWord, largest, lies, place, row, stride, words_in_all};

// The largest numbers of mounts, tasks and nodes, and the count words of one gate, which lie in a line, one for each processor.
const MOUNTS: usize = 8;

const TASKS: usize = 64;

const NODES: usize = 64;

const LINE: usize = 64;

// How many words there are of each kind.
const OF_ALL: usize = 7;

const OF_MOUNT: usize = 1;

const OF_LEVEL: usize = 2;

const OF_TASK: usize = 1;

const OF_NODE: usize = 2;

const COUNTS_OF_MOUNT: usize = 1;

const COUNTS_OF_LEVEL: usize = 1;

// Where each kind begins: each where the one before it ends. Levels count from 1, so the base of a kind of level words is where a level 0
// would lie.
const MOUNT: usize = OF_ALL;

const LEVEL: usize = MOUNT + MOUNTS * OF_MOUNT - 1;

const TASK: usize = LEVEL + 3 * OF_LEVEL + 1;

const NODE: usize = TASK + TASKS * OF_TASK;

const MOUNT_COUNT: usize = NODE + NODES * OF_NODE;

const LEVEL_COUNT: usize = MOUNT_COUNT + LINE * MOUNTS * COUNTS_OF_MOUNT - LINE;

/// How many places there are: every word at the largest limits has one of its own.
pub const WORDS: usize = LEVEL_COUNT + LINE * 3 * COUNTS_OF_LEVEL + LINE;

/// How far apart words lie in a table that gives each word cache lines of its own: 16 places of 8 bytes.
pub const STRIDE: usize = 16;

/// A word of the gates. All begin at 0, except `Node(0)`, the root, which begins at 2.
#[derive(Clone, Copy, PartialEq, Eq)]
pub enum WordName {
    /// `s_umount` and the mount lock: 0 where it is free, else the owner's task number and 1.
    Umount,
    /// `s_writers.frozen`: SB_UNFROZEN 0 to SB_FREEZE_COMPLETE 4.
    Stage,
    /// Who holds a freeze: the kernel 1, user space 2.
    Holders,
    /// SB_RDONLY of `s_flags`: 0 or 1.
    SbFlags,
    /// `s_readonly_remount`: 0 or 1.
    Remount,
    /// `s_remove_count`: how many removed files still are open.
    Removed,
    /// `mnt_flags` of a mount (0 to 7): READONLY 1 and HOLD 2.
    MountFlags(u8),
    /// `mnt_writers` of a mount on a processor (0 to 63).
    MountCount(u8, u8),
    /// `block` of a level's semaphore (1 to 3): 0 or 1.
    Block(u8),
    /// `rss` of a level's semaphore: the state and the count of its `rcu_sync`.
    Sync(u8),
    /// `read_count` of a level's semaphore on a processor.
    LevelCount(u8, u8),
    /// The read-side section of a task (0 to 63): odd inside.
    Section(u8),
    /// The blocks that are charged.
    Used,
    /// A node of the tree (0 to 63).
    Node(u8),
    /// The children that are charged to a node.
    Kids(u8),
}

/// The row of a word: its kind, which is what there is one such word of, which of the words of that kind it is, from 0, and what it is the
/// word of.
#[derive(Clone, Copy)]
pub enum WordRow {
    /// Of the whole file system.
    OfAll { which: u8 },
    /// Of each mount.
    OfMount { which: u8, mount: u8 },
    /// Of each mount on each processor.
    CountOfMount { which: u8, mount: u8, cpu: u8 },
    /// Of each freeze level.
    OfLevel { which: u8, level: u8 },
    /// Of each freeze level on each processor.
    CountOfLevel { which: u8, level: u8, cpu: u8 },
    /// Of each task.
    OfTask { which: u8, task: u8 },
    /// Of each node.
    OfNode { which: u8, node: u8 },
}

impl WordRow {
    /// Where the word of this row lies.
    #[inline(always)]
    pub fn place(self) -> usize
        ensures { result ≡ lies self }
    {
        match self {
            WordRow::OfAll { which } => which as usize,
            WordRow::OfMount { which, mount } => MOUNT + MOUNTS * which as usize + mount as usize,
            WordRow::CountOfMount { which, mount, cpu } => {
                MOUNT_COUNT + LINE * MOUNTS * which as usize + LINE * mount as usize + cpu as usize
            }
            WordRow::OfLevel { which, level } => LEVEL + 3 * which as usize + level as usize,
            WordRow::CountOfLevel { which, level, cpu } => {
                LEVEL_COUNT + LINE * 3 * which as usize + LINE * level as usize + cpu as usize
            }
            WordRow::OfTask { which, task } => TASK + TASKS * which as usize + task as usize,
            WordRow::OfNode { which, node } => NODE + NODES * which as usize + node as usize,
        }
    }
}

impl WordName {
    /// The row of the word, which says where it lies and which configurations have it. A word more takes its row here.
    #[inline(always)]
    pub fn row(self) -> WordRow
        ensures { result ≡ row self }
    {
        match self {
            WordName::Umount => WordRow::OfAll { which: 0 },
            WordName::Stage => WordRow::OfAll { which: 1 },
            WordName::Holders => WordRow::OfAll { which: 2 },
            WordName::SbFlags => WordRow::OfAll { which: 3 },
            WordName::Remount => WordRow::OfAll { which: 4 },
            WordName::Removed => WordRow::OfAll { which: 5 },
            WordName::Used => WordRow::OfAll { which: 6 },
            WordName::MountFlags(mount) => WordRow::OfMount { which: 0, mount },
            WordName::MountCount(mount, cpu) => WordRow::CountOfMount {
                which: 0,
                mount,
                cpu,
            },
            WordName::Block(level) => WordRow::OfLevel { which: 0, level },
            WordName::Sync(level) => WordRow::OfLevel { which: 1, level },
            WordName::LevelCount(level, cpu) => WordRow::CountOfLevel {
                which: 0,
                level,
                cpu,
            },
            WordName::Section(task) => WordRow::OfTask { which: 0, task },
            WordName::Node(node) => WordRow::OfNode { which: 0, node },
            WordName::Kids(node) => WordRow::OfNode { which: 1, node },
        }
    }

    /// The place of the word among all words. It is the same for every configuration, and below `WORDS` for every word
    /// that a configuration has, so that finding a word costs a constant, a shift and an addition.
    #[inline(always)]
    pub fn place(self) -> usize
        ensures { result ≡ place self }
    {
        self.row().place()
    }
}

/// Each word at the largest limits has a place of its own, below `WORDS`. The function does nothing: its contract is the law.
pub fn each_word_has_a_place()
    ensures count { WORDS ≡ words_in_all }
    ensures apart { STRIDE ≡ stride }
    ensures below { (name : WordNameType) → IsWord largest name → place name < words_in_all }
    ensures own { (name other : WordNameType) → IsWord largest name → IsWord largest other → place other ≡ place name → other ≡ name }
{}
