//! The commands on a task: one table, for all who read, print or explain a command.

ghost use Rattle.std.specs.Prelude.{◌≡◌, bytes_eq};
ghost use Rattle.schedule_text.specs.Verbs.{row, takes, verb_name, verb_of, waits};

use schedule_lines::words::is_word;

/// The second word of a line on a task.
#[derive(Clone, Copy)]
pub enum Verb {
    Run,
    Step,
    Want,
    TryWant,
    WantWrite,
    Drop,
    DropWrite,
    Start,
    TryStart,
    End,
    Callback,
    Change,
    TryChange,
    Remount,
    Freeze,
    Thaw,
    Create,
    Remove,
    Grow,
    Move,
    Fault,
    Flush,
    Open,
    Close,
    TryClose,
    Snapshot,
    TrySnapshot,
}

/// What is to be known of a verb.
#[derive(Clone, Copy)]
pub struct VerbRow {
    /// The word that names it.
    pub name: &'static str,
    /// Its arguments, as a person is told: in brackets those that may be left out, and with a bar between them the words of which one stands
    /// there. All others are numbers.
    pub arguments: &'static str,
    /// How many words its line has at least, the task and the verb among them: without what is in brackets.
    pub fewest: usize,
    /// How many words its line has at most. It has either so many or the fewest.
    pub most: usize,
}

impl VerbRow {
    /// The row of a verb whose lines have so many words.
    #[inline(always)]
    fn new(name: &'static str, arguments: &'static str, words: usize) -> VerbRow
        ensures name { result.name.now ≡ name.now }
        ensures fewest { result.fewest ≡ words }
        ensures most { result.most ≡ words }
    {
        VerbRow {
            name,
            arguments,
            fewest: words,
            most: words,
        }
    }

    /// The row of a verb whose arguments may be left out: with them a line has so many words.
    #[inline(always)]
    fn or_bare(name: &'static str, arguments: &'static str, words: usize) -> VerbRow
        ensures name { result.name.now ≡ name.now }
        ensures fewest { result.fewest ≡ 2 }
        ensures most { result.most ≡ words }
    {
        VerbRow {
            name,
            arguments,
            fewest: 2,
            most: words,
        }
    }
}

impl Verb {
    /// All verbs.
    pub const ALL: [Verb; 27] = [
        Verb::Run,
        Verb::Step,
        Verb::Want,
        Verb::TryWant,
        Verb::WantWrite,
        Verb::Drop,
        Verb::DropWrite,
        Verb::Start,
        Verb::TryStart,
        Verb::End,
        Verb::Callback,
        Verb::Change,
        Verb::TryChange,
        Verb::Remount,
        Verb::Freeze,
        Verb::Thaw,
        Verb::Create,
        Verb::Remove,
        Verb::Grow,
        Verb::Move,
        Verb::Fault,
        Verb::Flush,
        Verb::Open,
        Verb::Close,
        Verb::TryClose,
        Verb::Snapshot,
        Verb::TrySnapshot,
    ];

    /// What is to be known of it.
    pub fn row(self) -> VerbRow
        ensures name { result.name.now ≡ (row self).name }
        ensures fewest { result.fewest ≡ (row self).fewest }
        ensures most { result.most ≡ (row self).most }
    {
        match self {
            Verb::Run => VerbRow::or_bare("run", "[sync|freeze|unfreeze|reconfigure|wait CODE]", 4),
            Verb::Step => VerbRow::or_bare("step", "[CODE]", 3),
            Verb::Want => VerbRow::new("want", "M C", 4),
            Verb::TryWant => VerbRow::new("trywant", "M C", 4),
            Verb::WantWrite => VerbRow::new("wantwrite", "M C", 4),
            Verb::Drop => VerbRow::new("drop", "M C", 4),
            Verb::DropWrite => VerbRow::new("dropwrite", "M C", 4),
            Verb::Start => VerbRow::new("start", "L C", 4),
            Verb::TryStart => VerbRow::new("trystart", "L C", 4),
            Verb::End => VerbRow::new("end", "L C", 4),
            Verb::Callback => VerbRow::new("callback", "L", 3),
            Verb::Change => VerbRow::new("change", "M ro|rw", 4),
            Verb::TryChange => VerbRow::new("trychange", "M ro|rw", 4),
            Verb::Remount => VerbRow::new("remount", "ro|rw", 3),
            Verb::Freeze => VerbRow::or_bare("freeze", "[kernel|user]", 3),
            Verb::Thaw => VerbRow::or_bare("thaw", "[kernel|user]", 3),
            Verb::Create => VerbRow::new("create", "D file|dir", 4),
            Verb::Remove => VerbRow::new("remove", "N", 3),
            Verb::Grow => VerbRow::new("grow", "N B", 4),
            Verb::Move => VerbRow::new("move", "N D", 4),
            Verb::Fault => VerbRow::new("fault", "N", 3),
            Verb::Flush => VerbRow::new("flush", "N", 3),
            Verb::Open => VerbRow::new("open", "N", 3),
            Verb::Close => VerbRow::new("close", "N C", 4),
            Verb::TryClose => VerbRow::new("tryclose", "N C", 4),
            Verb::Snapshot => VerbRow::new("snapshot", "", 2),
            Verb::TrySnapshot => VerbRow::new("trysnapshot", "", 2),
        }
    }

    /// The call that it begins, by its names: the library's, and behind it the kernel's functions that do this, with spaces between. None
    /// if it begins none.
    pub fn call_names(self) -> Option<&'static str> {
        let names = match self {
            Verb::Run | Verb::Step => return None,
            Verb::Want => "want __mnt_want_write",
            Verb::TryWant => "try_want",
            Verb::WantWrite => "want_write mnt_want_write",
            Verb::Drop => "drop_mount __mnt_drop_write",
            Verb::DropWrite => "drop_write mnt_drop_write",
            Verb::Start => "start sb_start_write sb_start_pagefault sb_start_intwrite",
            Verb::TryStart => "try_start sb_start_write_trylock",
            Verb::End => "end sb_end_write sb_end_pagefault sb_end_intwrite",
            Verb::Callback => "callback rcu_sync_func",
            Verb::Change => "change_mount mnt_make_readonly change_mount_ro_state",
            Verb::TryChange => "try_change_mount",
            Verb::Remount => "remount_sb reconfigure_super",
            Verb::Freeze => "freeze freeze_super freeze_bdev try_freeze freeze_until",
            Verb::Thaw => "thaw thaw_super thaw_bdev",
            Verb::Create => "create vfs_create vfs_mkdir",
            Verb::Remove => "remove vfs_unlink",
            Verb::Grow => "grow vfs_write vfs_truncate",
            Verb::Move => "move_to vfs_rename",
            Verb::Fault => "fault page_mkwrite",
            Verb::Flush => "flush writeback_single_inode",
            Verb::Open => "open_file do_dentry_open",
            Verb::Close => "close_file __fput",
            Verb::TryClose => "try_close_file",
            Verb::Snapshot => "snapshot",
            Verb::TrySnapshot => "try_snapshot",
        };
        Some(names)
    }

    /// The word that names it.
    #[inline(always)]
    pub fn name(self) -> &'static str
        ensures { result.now ≡ verb_name self }
    {
        self.row().name
    }

    /// Whether a word names it.
    #[inline(always)]
    fn is_named(self, word: &[u8]) -> bool
        ensures { result ≡ bytes_eq word.now (verb_name self) }
    {
        is_word(word, self.name())
    }

    /// The verb that a word names. Most words are one of a few, with which it is compared first.
    pub fn of(word: &[u8]) -> Option<Verb>
        ensures { result ≡ verb_of word.now }
    {
        if is_word(word, "run") {
            Some(Verb::Run)
        } else if is_word(word, "step") {
            Some(Verb::Step)
        } else if is_word(word, "want") {
            Some(Verb::Want)
        } else if is_word(word, "drop") {
            Some(Verb::Drop)
        } else if is_word(word, "change") {
            Some(Verb::Change)
        } else {
            Verb::ALL.iter().find(|verb| verb.is_named(word)).copied()
        }
    }

    /// Whether the operation that it begins waits, where it may: all do but those of the verbs that begin with `try`.
    pub fn waits(self) -> bool
        ensures { result ≡ waits self }
    {
        !matches!(
            self,
            Verb::TryWant | Verb::TryStart | Verb::TryChange | Verb::TryClose | Verb::TrySnapshot
        )
    }

    /// Whether a line with this verb may have so many words, the task and the verb among them.
    pub fn takes(self, words: usize) -> bool
        ensures { result ≡ takes self words }
    {
        let row = self.row();
        words == row.fewest || words == row.most
    }
}
