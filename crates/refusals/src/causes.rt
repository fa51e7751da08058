//! The refusals, with their names in Linux.

use access_model::GateError;

/// A refusal, its name in Linux, and what it means in short.
pub(crate) type Cause = (GateError, &'static str, &'static str);

/// All refusals, by their numbers. `Hook(0)` stands for a hook's of whatever code.
pub(crate) static CAUSES: [Cause; 12] = [
    (
        GateError::NoEntry,
        "ENOENT",
        "the node was free, or its file removed",
    ),
    (
        GateError::Again,
        "EAGAIN",
        "the waiting form would have waited, or another task came first",
    ),
    (
        GateError::NoMemory,
        "ENOMEM",
        "a growth of memory was refused",
    ),
    (
        GateError::Busy,
        "EBUSY",
        "somebody is counted, a removed file is open, or a freeze stands",
    ),
    (GateError::NotDir, "ENOTDIR", "the node is a file"),
    (GateError::IsDir, "EISDIR", "the node is a directory"),
    (
        GateError::Invalid,
        "EINVAL",
        "a number is out of range, or nothing is frozen",
    ),
    (
        GateError::TooMany,
        "EMFILE",
        "one access, task or open more than there may be",
    ),
    (
        GateError::NoSpace,
        "ENOSPC",
        "no free node, or no blocks left",
    ),
    (
        GateError::ReadOnly,
        "EROFS",
        "the mount or the superblock is read-only",
    ),
    (
        GateError::Order,
        "EDEADLK",
        "the task may not make this call now",
    ),
    (
        GateError::Hook(0),
        "",
        "the file system failed, or gave a freeze up, with a code of its own",
    ),
];

/// Returns the refusal of this name.
pub(crate) fn cause_of(name: &str) -> Option<&'static Cause> {
    for cause in &CAUSES {
        if cause.0.name() == name {
            return Some(cause);
        }
    }
    None
}
