//! What gates and tasks show of themselves.

use super::super::models::passed;
use std::alloc::Global;
use std::fmt::Debug;
use std::test::Fail;
use vfs_gates::{Config, Gates};

/// One task at one mount.
const ALONE: Config = Config {
    tasks: 1,
    processors: 2,
    mounts: 1,
    nodes: 2,
    capacity: 8,
};

/// Whether a value shows itself so, to begin with.
fn shows<D: Debug>(alloc: Global, shown: &D, beginning: &str) -> bool {
    match format!(in alloc; "{shown:?}") {
        Ok(text) => text.starts_with(beginning),
        Err(_) => false,
    }
}

#[test]
fn gates_and_tasks_show_themselves(rt: HostRuntime) -> Result<(), Fail> {
    let alloc = rt.alloc();
    let (gates, task) = Gates::new(alloc, ALONE)?;
    let is_open_shown = shows(alloc, &gates, "Gates { config: Config { tasks: ")
        && shows(alloc, &task, "Task { number: 0, under_way: false, ");
    let is_closed_shown = match gates.close(task) {
        Ok(closed) => shows(alloc, &closed, "Closed { config: Config { tasks: "),
        Err(_) => false,
    };
    passed(is_open_shown && is_closed_shown)
}
