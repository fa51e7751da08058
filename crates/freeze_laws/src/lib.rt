//! The laws of a freeze, over numbers and roles: of a level's rcu_sync and sections (`levels`), of the stage, the blocks and the marks
//! (`stages`), and of the moments of a history at which all was frozen (`moments`). It has no code: its functions state laws.
#![tactic(auto)]

pub mod levels;
pub mod moments;
pub mod stages;
