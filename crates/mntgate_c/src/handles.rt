//! What C keeps of a task: a pointer.

ghost use Rattle.std.specs.Prelude.{Bool};
ghost use Rattle.vfs_gates.specs.TaskStates.{SeatedTask};
ghost use Rattle.mntgate_c.specs.Handles.{holds};

use std::marker::Model;

/// A handle: a task behind a pointer, or none. C sees `struct mntgate_task`, which is {0} while it has none.
#[repr(C)]
#[derive(Drop)]
pub struct TaskHandle {
    pub(crate) at: *mut u8,
    pub ghost full: { Bool },
    pub ghost state: { SeatedTask },
}

impl Model for TaskHandle {
    ghost also_owns = { λ h. holds h.full h.at h.state };
}

// It may go to another thread, since its task and its gates may.
unsafe impl Send for TaskHandle {}
