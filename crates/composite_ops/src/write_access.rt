//! Write access: freeze level 1 and a mount, one inside the other, as `mnt_want_write` takes them and `mnt_drop_write` gives them
//! back. Each is an order of steps that goes through the orders of steps of its two gates.

pub mod phases;

pub use phases::WritePhase;
