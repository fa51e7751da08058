//! Words and what their values say.

use crate::forms::{Names, Style};
use crate::terms::kind_word;
use cpu_words::WordName;
use node_words::NodeWord;
use percpu_rwsem::{GpState, SyncWord};
use schedule_lines::Output;

/// The bits of a mount's flags.
const READONLY: u64 = 1;

const HOLD: u64 = 2;

impl Style {
    /// Prints the name of a word.
    pub(crate) fn name(self, out: &mut Output, word: WordName) {
        match self.names {
            Names::Schedule => out.word_name(word),
            Names::Kernel => kernel_name(out, word),
        }
    }

    /// Prints what a value of a word says: its number, where the word has no form of its own or the value is none of that form.
    pub(crate) fn value(self, out: &mut Output, word: WordName, value: u64) {
        if self.raw {
            return out.number(value);
        }
        match word {
            WordName::Umount => lock(out, value),
            WordName::Holders => holders(out, value),
            WordName::SbFlags if value < 2 => out.text(if value == 0 { b"rw" } else { b"ro" }),
            WordName::MountFlags(_) => flags(out, value),
            WordName::MountCount(..) | WordName::LevelCount(..) => count(out, value),
            WordName::Block(_) if value < 2 => {
                out.text(if value == 0 { b"open" } else { b"closed" });
            }
            WordName::Sync(_) => sync(out, value),
            WordName::Section(_) if value % 2 == 1 => {
                out.number(value);
                out.text(b" inside");
            }
            WordName::Node(_) => node(out, value),
            _ => out.number(value),
        }
    }
}

/// The name of a word in the kernel; that of schedules, where the word is ours.
fn kernel_name(out: &mut Output, word: WordName) {
    match word {
        WordName::Umount => out.text(b"s_umount"),
        WordName::Stage => out.text(b"s_writers.frozen"),
        WordName::Holders => out.text(b"s_writers.freeze_holders"),
        WordName::SbFlags => out.text(b"SB_RDONLY"),
        WordName::Remount => out.text(b"s_readonly_remount"),
        WordName::Removed => out.text(b"s_remove_count"),
        WordName::MountFlags(mount) => of_mount(out, mount, b".mnt_flags"),
        WordName::MountCount(mount, cpu) => {
            of_mount(out, mount, b".mnt_writers[");
            out.number(u64::from(cpu));
            out.text(b"]");
        }
        WordName::Block(level) => of_level(out, level, b".block"),
        WordName::Sync(level) => of_level(out, level, b".rss"),
        WordName::LevelCount(level, cpu) => {
            of_level(out, level, b".read_count[");
            out.number(u64::from(cpu));
            out.text(b"]");
        }
        WordName::Section(_) | WordName::Used | WordName::Node(_) | WordName::Kids(_) => {
            out.word_name(word);
        }
    }
}

fn of_mount(out: &mut Output, mount: u8, field: &[u8]) {
    out.numbered(b"mnt", u64::from(mount));
    out.text(field);
}

/// A field of a level's semaphore, which the kernel calls `rw_sem` and counts from 0, and schedules count from 1.
fn of_level(out: &mut Output, level: u8, field: &[u8]) {
    out.numbered(b"rw_sem[", u64::from(level.saturating_sub(1)));
    out.text(b"]");
    out.text(field);
}

/// Who owns a lock.
fn lock(out: &mut Output, value: u64) {
    match value.checked_sub(1) {
        None => out.text(b"free"),
        Some(owner) => out.numbered(b"task ", owner),
    }
}

fn holders(out: &mut Output, value: u64) {
    match value {
        0 => out.text(b"nobody"),
        1 => out.text(b"kernel"),
        2 => out.text(b"user"),
        3 => out.text(b"kernel, user"),
        _ => out.number(value),
    }
}

fn flags(out: &mut Output, value: u64) {
    match value {
        0 => out.text(b"none"),
        READONLY => out.text(b"READONLY"),
        HOLD => out.text(b"HOLD"),
        3 => out.text(b"READONLY, HOLD"),
        _ => out.number(value),
    }
}

/// A count, which is negative where more was subtracted on its processor than added.
fn count(out: &mut Output, value: u64) {
    let below = value.wrapping_neg();
    if below < value {
        out.numbered(b"-", below);
    } else {
        out.number(value);
    }
}

fn sync(out: &mut Output, value: u64) {
    let Some(word) = SyncWord::unpack(value) else {
        return out.number(value);
    };
    out.text(state_name(word.state));
    if word.taken {
        out.text(b", callback taken");
    }
    match word.count {
        0 => {}
        1 => out.text(b", 1 writer"),
        count => {
            out.numbered(b", ", u64::from(count));
            out.text(b" writers");
        }
    }
}

fn state_name(state: GpState) -> &'static [u8] {
    match state {
        GpState::Idle => b"GP_IDLE",
        GpState::Enter => b"GP_ENTER",
        GpState::Passed => b"GP_PASSED",
        GpState::Exit => b"GP_EXIT",
        GpState::Replay => b"GP_REPLAY",
    }
}

/// A node: `file in 2 size 4 dirty, open 1`, with what is usual left out: the root as parent, no block, clean, open to nobody.
fn node(out: &mut Output, value: u64) {
    let Some(node) = NodeWord::unpack(value) else {
        return out.number(value);
    };
    let Some(kind) = node.kind else {
        return out.text(b"free");
    };
    out.text(kind_word(kind).as_bytes());
    if node.parent > 0 {
        out.numbered(b" in ", u64::from(node.parent));
    }
    if node.size > 0 {
        out.numbered(b" size ", u64::from(node.size));
    }
    if node.dirty {
        out.text(b" dirty");
    }
    if node.removed {
        out.text(b" removed");
    }
    if node.opens > 0 {
        out.numbered(b", open ", u64::from(node.opens));
    }
}
