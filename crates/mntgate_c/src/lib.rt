//! The gates for C: a static library. A handle is a pointer that C keeps, to a task of `vfs_gates` with the gates that it came from; answers,
//! steps, operations and trees cross as numbers and records. `bindings/c/mntgate.h` is what C includes. Each export says by the library's own
//! clause what it did.
#![tactic(auto)]

mod closings;
mod codes;
mod events;
mod exports;
mod handles;
mod lending;
mod members;
mod openings;
mod operations;
mod runs;
mod trees;
mod unboxed;
