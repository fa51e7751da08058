//! The operations that a task may begin.

use access_model::{Holder, Kind};

/// An operation. `wait` chooses the form that looks again and again; the try form answers Again in its place.
#[derive(Clone, Copy)]
pub enum Op {
    /// `__mnt_want_write`: an access at a mount, taken on a processor.
    Want {
        mount: u8,
        cpu: u8,
        wait: bool,
    },
    /// `__mnt_drop_write`: gives an access at a mount back, on any processor.
    DropMount {
        mount: u8,
        cpu: u8,
    },
    /// `mnt_make_readonly`, or its undoing: changes a mount's own flag.
    ChangeMount {
        mount: u8,
        read_only: bool,
        wait: bool,
    },
    /// `reconfigure_super`: remounts the superblock read-only or writable. It waits for `umount`.
    RemountSb {
        read_only: bool,
    },
    /// `sb_start_write`, `sb_start_pagefault`, `sb_start_intwrite`: goes inside a level (1 to 3), counted on a processor.
    Start {
        level: u8,
        cpu: u8,
        wait: bool,
    },
    /// `sb_end_write` and its like: leaves a level, on any processor.
    End {
        level: u8,
        cpu: u8,
    },
    /// `mnt_want_write`: goes inside level 1 and takes an access at a mount, both on a processor. It waits for both.
    WantWrite {
        mount: u8,
        cpu: u8,
    },
    /// `mnt_drop_write`: gives the access back and leaves level 1, both on any processor.
    DropWrite {
        mount: u8,
        cpu: u8,
    },
    /// `rcu_sync_func`, which the kernel's RCU calls: runs the callback that a level has queued, where it has one. It waits for
    /// readers' sections.
    Callback {
        level: u8,
    },
    /// `freeze_super`: closes the levels one after the other, and freezes the file system. It waits for `umount`, and for who is
    /// inside a level. Where all is frozen already for another holder, it is held for this one, too.
    Freeze {
        holder: Holder,
    },
    /// `thaw_super`: gives a holder's freeze back, whoever froze; where no other is held, it thaws a frozen file system and reopens its
    /// levels. It waits for `umount`.
    Thaw {
        holder: Holder,
    },
    /// `vfs_create`, `vfs_mkdir`: makes a file or a directory in a directory, in the first free node.
    Create {
        dir: u8,
        kind: Kind,
    },
    /// `vfs_unlink`: removes a file, and gives its blocks back.
    Remove {
        file: u8,
    },
    /// `vfs_write` past the end: makes a file larger by so many blocks, and dirty.
    Grow {
        file: u8,
        blocks: u32,
    },
    /// `vfs_rename`: gives a file another directory.
    MoveTo {
        file: u8,
        dir: u8,
    },
    /// `page_mkwrite`: makes a file dirty, inside level 2.
    Fault {
        file: u8,
    },
    /// Write-back: makes a file clean, inside level 3.
    Flush {
        file: u8,
    },
    /// `do_dentry_open`: opens a file, which stays until its last close, whoever removes it.
    Open {
        file: u8,
    },
    /// `__fput`: closes a file that the task has open. The last close of a removed file frees it, inside level 3, on a processor.
    Close {
        file: u8,
        cpu: u8,
        wait: bool,
    },
    /// A snapshot of the whole tree, under `umount`, while the file system is frozen.
    Snapshot {
        wait: bool,
    },
}
