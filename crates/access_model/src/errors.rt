//! Why a call was refused.

ghost use Rattle.std.specs.Prelude.{◌≡◌};
ghost use Rattle.access_model.specs.declared.errors.GateError.TheVariants.{NoMemory};
ghost use Rattle.access_model.specs.Errors.{number_of, name_of};

use std::alloc::AllocError;
use thiserror::Error;

/// Why a call was refused. The numbers are those of Linux's errno, but a hook's is its own code.
#[derive(Clone, Copy, PartialEq, Eq, Debug, Error)]
pub enum GateError {
    /// The node that was named is free.
    #[error("no such node")]
    NoEntry,
    /// A try form would have had to wait, or another task changed the word in between.
    #[error("try again")]
    Again,
    /// A growth of memory was refused.
    #[error("out of memory")]
    NoMemory,
    /// Somebody is inside, or a freeze stands or is under way.
    #[error("busy")]
    Busy,
    /// The node that was named is a file.
    #[error("not a directory")]
    NotDir,
    /// The node that was named is a directory.
    #[error("is a directory")]
    IsDir,
    /// A number out of range, or a stage at which the call can't be.
    #[error("invalid")]
    Invalid,
    /// One access, or one task, more than there may be.
    #[error("too many")]
    TooMany,
    /// No free node, or no blocks left.
    #[error("no space")]
    NoSpace,
    /// The mount or the superblock is read-only.
    #[error("read-only")]
    ReadOnly,
    /// A call at a time at which the task may not make it.
    #[error("out of order")]
    Order,
    /// A hook of the file system failed with this code. It is a refusal of its own, whatever the code: `Hook(16)` isn't `Busy`, though its
    /// number is the same.
    #[error("hook failed with {0}")]
    Hook(u16),
}

impl From<AllocError> for GateError {
    ghost from_gives = { λ _ e. e ≡ NoMemory };

    fn from(_error: AllocError) -> GateError {
        GateError::NoMemory
    }
}

impl GateError {
    /// The errno of a refusal: EBUSY's 16 for `Busy`. A hook's number is its code.
    pub fn number(&self) -> u16
        ensures { result ≡ number_of self.now }
    {
        match *self {
            GateError::NoEntry => 2,
            GateError::Again => 11,
            GateError::NoMemory => 12,
            GateError::Busy => 16,
            GateError::NotDir => 20,
            GateError::IsDir => 21,
            GateError::Invalid => 22,
            GateError::TooMany => 24,
            GateError::NoSpace => 28,
            GateError::ReadOnly => 30,
            GateError::Order => 35,
            GateError::Hook(code) => code,
        }
    }

    /// The name that is printed beside the number, as `Busy`.
    pub fn name(&self) -> &'static str
        ensures { result.now ≡ name_of self.now }
    {
        match *self {
            GateError::NoEntry => "NoEntry",
            GateError::Again => "Again",
            GateError::NoMemory => "NoMemory",
            GateError::Busy => "Busy",
            GateError::NotDir => "NotDir",
            GateError::IsDir => "IsDir",
            GateError::Invalid => "Invalid",
            GateError::TooMany => "TooMany",
            GateError::NoSpace => "NoSpace",
            GateError::ReadOnly => "ReadOnly",
            GateError::Order => "Order",
            GateError::Hook(_) => "Hook",
        }
    }
}
