//! How a call gets at the task behind a handle. All `unsafe` code of the crate is here and in `unboxed`: a pointer is kept as one to bytes,
//! since C may be given none to a type that has an `Arc` in it.

ghost use Rattle.std.specs.Prelude.{◌≡◌, true, false};
ghost use types.Logic.{sem};
ghost use Rattle.mntgate_c.specs.Follows.{handle_follows};

use crate::handles::TaskHandle;
use crate::members::Member;
use crate::unboxed::Unboxed;
use std::alloc::Global;
use std::mem::replace;
use std::ptr::null_mut;

impl TaskHandle {
    /// A handle with no task.
    fn empty(_like: &TaskHandle) -> TaskHandle
        ensures { result.full ≡ false }
    {
        TaskHandle { at: null_mut() }
    }

    fn of(member: Unboxed<Member, Global>) -> TaskHandle
        ensures { (result.full ≡ true) × (result.state ≡ member.value) }
    {
        let Unboxed { at, alloc: _ } = member;
        TaskHandle { at: at as *mut u8 }
    }

    fn into_unboxed(self, alloc: Global) -> Unboxed<Member, Global>
        requires { self.full ≡ true }
        ensures { result.value ≡ self.state }
    {
        let TaskHandle { at } = self;
        Unboxed {
            at: at as *mut Member,
            alloc,
        }
    }

    /// Lends the task, with its gates. The handle itself isn't written, so handles in one cache line don't slow each other down.
    pub fn member(&mut self) -> &mut Member
        requires { self.old.full ≡ true }
        ensures* follows { sem 𝓛 (handle_follows self.entry result) }
        ensures now { result.now ≡ self.old.state }
    {
        unsafe { &mut *(self.at as *mut Member) }
    }

    /// Takes the task, which the handle has no more.
    pub(crate) fn take(&mut self, alloc: Global) -> Box<Member, Global>
        requires { self.old.full ≡ true }
        ensures task { result.value ≡ self.old.state }
        ensures left { self.new.full ≡ false }
    {
        let empty = TaskHandle::empty(self);
        replace(self, empty).into_unboxed(alloc).into_box()
    }

    /// Gives a task to a handle that has none.
    pub(crate) fn put(&mut self, member: Box<Member, Global>)
        requires { self.old.full ≡ false }
        ensures { (self.new.full ≡ true) × (self.new.state ≡ member.value) }
    {
        *self = TaskHandle::of(Unboxed::of(member));
    }
}
