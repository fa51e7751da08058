//! What stands in Linux 6.1 for a step: docs/kernel.md has the whole of it.

use crate::trace::Taken;
use cpu_words::{Event, Touch, WordName};
use gate_world::Op;
use percpu_rwsem::SyncWord;

/// The bits of a mount's flags.
const READONLY: u64 = 1;

const HOLD: u64 = 2;

/// What stands for a step of a call at the tree that another one came before.
static SHUT_OUT: &str = "none: inode_lock shuts others out";

/// What stands for a step of a level's callback.
static SYNC_FUNC: &str = "rcu_sync_func: gp_state = ..";

/// The code of the kernel that a step stands for; empty, where it has none.
pub(crate) fn code_of(taken: &Taken) -> &'static str {
    let event = taken.event;
    match event.word {
        WordName::Umount => lock_code(taken.call, event),
        WordName::Stage => stage_code(event),
        WordName::Holders => "s_writers.freeze_holders (since 6.6)",
        WordName::SbFlags => match event.touch {
            Touch::Store(_) => "WRITE_ONCE(sb->s_flags, ..); smp_wmb()",
            _ => "sb_rdonly(sb)",
        },
        WordName::Remount => remount_code(event),
        WordName::Removed => removed_code(taken.call, event),
        WordName::MountFlags(_) => flags_code(taken),
        WordName::MountCount(..) => mount_count_code(event),
        WordName::Block(_) => block_code(event),
        WordName::Sync(_) => sync_code(taken.call, event),
        WordName::LevelCount(..) => level_count_code(event),
        WordName::Section(_) => section_code(event),
        WordName::Used | WordName::Node(_) | WordName::Kids(_) => tree_code(taken.call, event),
    }
}

fn lock_code(call: Option<Op>, event: Event) -> &'static str {
    let takes = matches!(event.touch, Touch::Cas { .. });
    match call {
        Some(Op::Snapshot { .. }) => "none: a snapshot takes no lock of the superblock",
        Some(Op::ChangeMount { .. }) if takes => "down_read(&sb->s_umount); lock_mount_hash()",
        Some(Op::ChangeMount { .. }) => "unlock_mount_hash(); up_read(&sb->s_umount)",
        _ if takes => "down_write(&sb->s_umount)",
        _ => "up_write(&sb->s_umount)",
    }
}

fn stage_code(event: Event) -> &'static str {
    match event.touch {
        Touch::Store(0) => "sb->s_writers.frozen = SB_UNFROZEN",
        Touch::Store(1) => "sb->s_writers.frozen = SB_FREEZE_WRITE",
        Touch::Store(2) => "sb->s_writers.frozen = SB_FREEZE_PAGEFAULT",
        Touch::Store(3) => "sb->s_writers.frozen = SB_FREEZE_FS",
        Touch::Store(_) => "sb->s_writers.frozen = SB_FREEZE_COMPLETE",
        _ => "sb->s_writers.frozen",
    }
}

fn remount_code(event: Event) -> &'static str {
    match event.touch {
        Touch::Store(0) => "sb->s_readonly_remount = 0",
        Touch::Store(_) => "sb->s_readonly_remount = 1; smp_wmb()",
        _ => "mnt->mnt_sb->s_readonly_remount; smp_rmb()",
    }
}

fn removed_code(call: Option<Op>, event: Event) -> &'static str {
    match (call, event.touch) {
        (_, Touch::Add(_)) => "atomic_long_inc(&sb->s_remove_count)",
        (Some(Op::Remove { .. }), Touch::Sub(_)) => SHUT_OUT,
        (_, Touch::Sub(_)) => "atomic_long_dec(&sb->s_remove_count)",
        _ => "atomic_long_read(&sb->s_remove_count)",
    }
}

fn flags_code(taken: &Taken) -> &'static str {
    match taken.event.touch {
        Touch::Or(HOLD) => "mnt->mnt_flags |= MNT_WRITE_HOLD; smp_mb()",
        Touch::Or(_) => "mnt->mnt_flags |= MNT_READONLY; smp_wmb()",
        Touch::And(kept) if kept & HOLD == 0 => "mnt->mnt_flags &= ~MNT_WRITE_HOLD",
        Touch::And(kept) if kept & READONLY == 0 => "mnt->mnt_flags &= ~MNT_READONLY",
        _ => match (taken.call, taken.before) {
            (
                Some(Op::Want { .. } | Op::WantWrite { .. }),
                Some(WordName::MountCount(..) | WordName::MountFlags(_)),
            ) => "while (mnt->mnt_flags & MNT_WRITE_HOLD) cpu_relax()",
            _ => "mnt->mnt_flags & MNT_READONLY",
        },
    }
}

fn mount_count_code(event: Event) -> &'static str {
    match event.touch {
        Touch::Add(_) => "mnt_inc_writers(mnt); smp_mb()",
        Touch::Sub(_) => "mnt_dec_writers(mnt)",
        _ => "mnt_get_writers(mnt) > 0",
    }
}

fn block_code(event: Event) -> &'static str {
    match event.touch {
        Touch::Swap(_) => "atomic_xchg(&sem->block, 1)",
        Touch::Store(_) => "atomic_set_release(&sem->block, 0)",
        _ => "atomic_read_acquire(&sem->block)",
    }
}

fn level_count_code(event: Event) -> &'static str {
    match event.touch {
        Touch::Add(_) => "this_cpu_inc(*sem->read_count)",
        Touch::Sub(_) => "this_cpu_dec(*sem->read_count)",
        _ => "per_cpu_sum(*sem->read_count)",
    }
}

fn section_code(event: Event) -> &'static str {
    match event.touch {
        Touch::Add(_) if event.left % 2 == 1 => "preempt_disable()",
        Touch::Add(_) => "preempt_enable()",
        _ => "synchronize_rcu()",
    }
}

/// The code of a step at an `rcu_sync`: by who looks, and by what became of its state and its count.
fn sync_code(call: Option<Op>, event: Event) -> &'static str {
    if let Touch::Cas { .. } = event.touch {
        return match SyncWord::unpack(event.found) {
            Some(found) => sync_change_code(found, event.left),
            None => SYNC_FUNC,
        };
    }
    match call {
        Some(Op::Start { .. } | Op::WantWrite { .. } | Op::Close { .. }) => {
            "rcu_sync_is_idle(&sem->rss)"
        }
        _ => "READ_ONCE(rsp->gp_state)",
    }
}

/// The code of a change of this `rcu_sync`, by what was left of it.
fn sync_change_code(found: SyncWord, left: u64) -> &'static str {
    match SyncWord::unpack(left) {
        Some(left) if found.count < left.count => "rcu_sync_enter: gp_count++",
        Some(left) if left.count < found.count => "rcu_sync_exit: --gp_count",
        Some(left) if !found.taken && left.taken => "call_rcu",
        _ => SYNC_FUNC,
    }
}

/// The code of a step at the tree, which is a file system's own business.
fn tree_code(call: Option<Op>, event: Event) -> &'static str {
    let looks = matches!(event.touch, Touch::Load);
    if let Touch::Cas { expect, .. } = event.touch {
        if event.found != expect {
            return SHUT_OUT;
        }
    }
    match call {
        Some(Op::RemountSb { .. }) => "fc->ops->reconfigure(fc) writes back",
        Some(Op::Freeze { .. }) => "sync_filesystem(sb)",
        Some(Op::Snapshot { .. }) => "the volume manager copies",
        _ => match event.word {
            WordName::Used => "the file system's count of blocks",
            WordName::Kids(_) => "the file system's count of children",
            WordName::Node(_) if looks => looked_code(call),
            WordName::Node(_) => node_code(call),
            _ => "the inode",
        },
    }
}

/// The code of a load of a node.
fn looked_code(call: Option<Op>) -> &'static str {
    match call {
        Some(Op::Create { .. } | Op::MoveTo { .. } | Op::Remove { .. }) => "the path walk",
        _ => "the inode",
    }
}

/// The code of a change of a node.
fn node_code(call: Option<Op>) -> &'static str {
    match call {
        Some(Op::Create { .. }) => "d_instantiate",
        Some(Op::MoveTo { .. }) => "d_move",
        Some(Op::Remove { .. }) => "drop_nlink, or evict",
        Some(Op::Grow { .. }) => "i_size_write; mark_inode_dirty",
        Some(Op::Fault { .. }) => "folio_mark_dirty",
        Some(Op::Flush { .. }) => "inode->i_state &= ~I_DIRTY",
        Some(Op::Open { .. }) => "do_dentry_open: ihold",
        Some(Op::Close { .. }) => "dput, iput",
        _ => "the inode",
    }
}
