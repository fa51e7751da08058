//! The close of a file. The last close of a removed file frees its node inside freeze level 3, as the last `iput` evicts an inode: it goes
//! through the order of steps of that level's readers.

pub mod phases;

pub use phases::{ClosePhase, Closing};
