//! Two holders of a freeze, each in a thread, beside a writer, and one who remounts, takes snapshots and writes.

use super::super::fixtures::Fixture;
use std::sync::atomic::{AtomicU64, Ordering};
use std::thread;
use vfs_gates::{GateError, Op, Tree};

/// The task that freezes as the kernel.
const OF_KERNEL: u8 = 4;

/// The one that freezes as user space.
const OF_USER: u8 = 1;

impl Fixture {
    /// What a holder has seen in its round.
    fn seen_by(&self, task: u8) -> &AtomicU64 {
        if task == OF_KERNEL {
            &self.kernel
        } else {
            &self.user
        }
    }

    /// Whether a snapshot is whole, and a holder sees nobody inside, and the same as before in its round. It yields then, so that the other may
    /// thaw in between.
    fn sees(&self, task: u8, tree: &Tree) -> bool {
        let is_whole = tree.is_sound() && tree.is_clean();
        if task != OF_KERNEL && task != OF_USER {
            return is_whole;
        }
        let blocks = tree.used().wrapping_mul(1000);
        let now = blocks.wrapping_add(tree.kids(0)).wrapping_add(1);
        let before = self.seen_by(task).swap(now, Ordering::SeqCst);
        let is_nobody_inside = self.inside.load(Ordering::SeqCst) == 0;
        thread::yield_now();
        is_whole && is_nobody_inside && (before == 0 || before == now)
    }

    /// A writer is inside from its want to its last call at the tree. Each snapshot is sound and clean.
    pub fn sees_as_before(
        &self,
        task: u8,
        op: Op,
        answer: Result<(), GateError>,
        tree: Option<&Tree>,
    ) -> bool {
        let is_done = answer.is_ok();
        match op {
            Op::WantWrite { .. } => {
                self.inside.fetch_add(u64::from(is_done), Ordering::SeqCst);
            }
            Op::Remove { .. } => {
                self.inside.fetch_sub(1, Ordering::SeqCst);
            }
            Op::Freeze { .. } => self.seen_by(task).store(0, Ordering::SeqCst),
            Op::Snapshot { .. } if is_done => {
                return match tree {
                    Some(tree) => self.sees(task, tree),
                    None => false,
                };
            }
            _ => {}
        }
        true
    }
}

/// No snapshot is of an open file system. Two tasks freeze, as the kernel and as user space, once no other's freeze is under way; they look
/// twice, and thaw. One writes, where the superblock is writable: it makes a file, makes it larger, and removes some file. One remounts,
/// takes a snapshot, whoever has frozen, and writes.
pub const CASE: &str = "\
config 5 2 1 6 8: holders
rounds 100 1000 500 100
    1 freeze user: done Busy*
    1 snapshot: done
    1 snapshot: done
    1 thaw user: done
    2 wantwrite 0 0: done ReadOnly>9
    2 create 0 file: done Again NoSpace
    2 grow 100 1: done Again NoEntry NoSpace
    2 remove 200: done Again NoEntry
    2 dropwrite 0 1: done
    3 remount ro: done Busy
    3 snapshot: done Invalid
    3 wantwrite 0 1: done ReadOnly>4
    3 create 0 file: done Again NoSpace
    3 grow 100 1: done Again NoEntry NoSpace
    3 remove 200: done Again NoEntry
    3 dropwrite 0 0: done
    3 remount rw: done Busy
    3 snapshot: done Invalid
    3 wantwrite 0 1: done ReadOnly>9
    3 create 0 file: done Again NoSpace
    3 grow 100 1: done Again NoEntry NoSpace
    3 remove 200: done Again NoEntry
    3 dropwrite 0 0: done
    4 freeze kernel: done Busy*
    4 snapshot: done
    4 snapshot: done
    4 thaw kernel: done
join: done
close: done
holders 0
stage 0
";
