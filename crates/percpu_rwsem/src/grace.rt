//! A grace period: each read-side section that was under way at its first load has ended at its last.

ghost use Rattle.std.specs.Prelude.{◌≡◌};
ghost use Rattle.percpu_rwsem.specs.Graces.{started, looked};

/// A grace period under way among so many tasks (1 to 64): the task number whose section word is loaded next, and, where that was found
/// odd, the first value found of it.
#[derive(Clone, Copy, PartialEq, Eq)]
pub struct Grace {
    pub tasks: u8,
    pub task: u8,
    pub first: Option<u64>,
}

/// What a load of a section word leads to.
#[derive(Clone, Copy)]
pub enum GraceNext {
    /// On to the section word of the next task.
    More(Grace),
    /// The task is in the section that it was first found in: the same word again, after a wait.
    Wait(Grace),
    /// That was the last task: each section that was under way at the start has ended.
    Ended,
}

impl Grace {
    /// A grace period among so many tasks (1 to 64: the caller's condition) before its first load (`synchronize_rcu`).
    #[inline(always)]
    pub fn start(tasks: u8) -> Grace
        ensures { result ≡ started tasks }
    {
        Grace {
            tasks,
            task: 0,
            first: None,
        }
    }

    /// What the value found in the section word leads to. A task whose word is even is in no section, and one whose word is another than
    /// the odd value first found has ended that section: both are passed.
    #[inline(always)]
    pub fn look(self, found: u64) -> GraceNext
        ensures { result ≡ looked self found }
    {
        let is_first = self.first.is_none_or(|first| found == first);
        if found % 2 == 1 && is_first {
            GraceNext::Wait(Grace {
                first: Some(found),
                ..self
            })
        } else if u16::from(self.task) + 1 < u16::from(self.tasks) {
            GraceNext::More(Grace {
                task: self.task + 1,
                first: None,
                ..self
            })
        } else {
            GraceNext::Ended
        }
    }
}
