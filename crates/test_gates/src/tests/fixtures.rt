//! What all tasks at some gates share beside them: the file system, what is noted beside their calls, and what was wrong.

use std::alloc::Global;
use std::sync::OnceLock;
use std::sync::atomic::{AtomicU64, Ordering};
use vfs_gates::{GateError, HookCall, Op, Tree};

/// What all tasks at some gates share.
#[derive(Drop)]
pub struct Fixture {
    pub alloc: Global,
    /// The case that is played.
    pub case: &'static str,
    /// What the file system answers, and what is looked at after each call: `agrees`, where that is nothing, or what a case of `threads`
    /// has.
    manner: &'static str,
    /// How many files node 200 stands for, one after the other: as many as there may be.
    pub files: u8,
    /// How often the file system was asked what it may refuse.
    pub asked: AtomicU64,
    /// How many tasks are inside, by their own account: writers, or readers of levels 1 and 2.
    pub inside: AtomicU64,
    /// How many readers are inside level 3.
    pub inside_top: AtomicU64,
    /// What each of two holders has seen in its round: 0, where it has seen nothing.
    pub kernel: AtomicU64,
    pub user: AtomicU64,
    /// The first line at which something was wrong.
    pub wrong: OnceLock<&'static str>,
}

impl Fixture {
    pub fn of(alloc: Global, case: &'static str, manner: &'static str, nodes: u8) -> Fixture {
        Fixture {
            alloc,
            case,
            manner,
            files: nodes.saturating_sub(1),
            asked: AtomicU64::new(0),
            inside: AtomicU64::new(0),
            inside_top: AtomicU64::new(0),
            kernel: AtomicU64::new(0),
            user: AtomicU64::new(0),
            wrong: OnceLock::new(),
        }
    }

    /// Notes that something was wrong at a line, if it is the first one.
    pub fn note_wrong(&self, line: &'static str) {
        let _ = self.wrong.try_set(line);
    }

    /// Notes that something was wrong at a line, unless it is so.
    pub fn expect(&self, is_so: bool, line: &'static str) {
        if !is_so {
            self.note_wrong(line);
        }
    }

    /// What the file system answers whatever it is asked by a hook: at freezes it fails every fifth time, and at remounts every third. There is
    /// nobody inside the levels that are passed then; but where it is asked whether to wait there may be.
    pub fn answer(&self, call: HookCall) -> Result<(), u16> {
        let fails = match self.manner {
            "freezes" => {
                let is_so = match call {
                    HookCall::KeepWaiting { .. } => true,
                    _ => self.is_empty(call != HookCall::Sync),
                };
                self.expect(is_so, "readers inside");
                self.asked.fetch_add(1, Ordering::SeqCst) % 5 == 4
            }
            "remounts" => self.asked.fetch_add(1, Ordering::SeqCst) % 3 == 2,
            _ => false,
        };
        if fails { Err(7) } else { Ok(()) }
    }

    /// Looks on after a call of a task, with its answer and the task's last snapshot. Says whether all is as it should be.
    pub fn looks(
        &self,
        task: u8,
        op: Op,
        answer: Result<(), GateError>,
        tree: Option<&Tree>,
    ) -> bool {
        match self.manner {
            "agrees" | "remounts" => true,
            "freezes" => self.counts_readers(op, answer),
            "holders" => self.sees_as_before(task, op, answer, tree),
            "trees" => is_whole(op, answer, tree),
            _ => false,
        }
    }
}

/// How many nodes there are where most are.
pub const NODES: u8 = 12;

/// Whether a snapshot is whole, by its own tests and by a sum of its sizes that uses neither; and whether the last one had no removed file where
/// a try afterwards finds the superblock read-only.
fn is_whole(op: Op, answer: Result<(), GateError>, tree: Option<&Tree>) -> bool {
    let most = match op {
        Op::Snapshot { .. } => u64::MAX,
        Op::Want { .. } if answer.is_err() => 0,
        _ => return true,
    };
    let Some(tree) = tree else {
        return false;
    };
    let mut blocks = 0u64;
    let mut removed = 0u64;
    for node in 1..NODES {
        if let Some(file) = tree.node(node) {
            blocks = blocks.wrapping_add(u64::from(file.size));
            removed = removed.wrapping_add(u64::from(file.removed));
        }
    }
    removed <= most && blocks == tree.used() && tree.is_sound() && tree.is_clean()
}
