//! Tasks in threads: four beside one another, while the first one waits.

pub mod freezes;
pub mod holders;
pub mod mounts;
pub mod opens;
pub mod remounts;
pub mod trees;
