//! Gates closed by a handle, and what their words hold then.

ghost use Rattle.std.specs.Prelude.{◌≡◌, ◌<◌, ℕ, true, false, Err, IfErr, IfOk, OnOk, length, slice_index, slice_index_or};
ghost use Rattle.access_model.specs.declared.errors.GateError.TheVariants.{Invalid};
ghost use Rattle.vfs_gates.specs.Ended.{EndedWith, HasAll};
ghost use Rattle.mntgate_c.specs.Closings.{CloseIsRefused, ClosedWith, IsValue, name_asked, no_word};

use crate::events::WordRecord;
use crate::handles::TaskHandle;
use std::alloc::Global;
use vfs_gates::{Closed, Gate, GateError, WordName};

/// The word that C names; None where there is none of that kind.
fn word_name(asked: WordRecord) -> Option<WordName>
    ensures { result ≡ name_asked asked }
{
    let WordRecord {
        kind,
        first,
        second,
    } = asked;
    let name = match kind {
        0 => WordName::Umount,
        1 => WordName::Stage,
        2 => WordName::Holders,
        3 => WordName::SbFlags,
        4 => WordName::Remount,
        5 => WordName::Removed,
        6 => WordName::MountFlags(first),
        7 => WordName::MountCount(first, second),
        8 => WordName::Block(first),
        9 => WordName::Sync(first),
        10 => WordName::LevelCount(first, second),
        11 => WordName::Section(first),
        12 => WordName::Used,
        13 => WordName::Node(first),
        14 => WordName::Kids(first),
        _ => return None,
    };
    Some(name)
}

/// The value of a word of closed gates, or the sum of a gate's counts; 0 where there is no such word or gate.
fn value(closed: &Closed, asked: WordRecord) -> u64
    ensures { IsValue closed.now asked result }
{
    let value = match asked.kind {
        15 => closed.gate_sum(Gate::Mount(asked.first)),
        16 => closed.gate_sum(Gate::Level(asked.first)),
        _ => word_name(asked).and_then(|name| closed.word(name)),
    };
    value.unwrap_or(0)
}

/// Writes what each of these words of closed gates holds.
fn write_values(closed: &Closed, asked: &[WordRecord], values: &mut [u64])
    requires { length asked.now ≡ length values.old }
    ensures length { length values.new ≡ length values.old }
    ensures values { (k : ℕ) → k < length values.new → IsValue closed.now (slice_index_or asked.now k no_word) (slice_index values.new k) }
{
    for i in 0..values.len() {
        values[i] = value(closed, asked[i]);
    }
}

impl TaskHandle {
    /// Closes the gates, whose last task this is, and leaves the handle without one.
    ///
    /// # Errors
    ///
    /// Order unless the task rests and has all other numbers, and Busy if another handle has the gates still: then the task is as it was.
    /// NoMemory if another handle has the gates still, and there was no memory to keep the task: then the handle has none.
    fn take_closed(&mut self, alloc: Global) -> Result<Closed, GateError>
        requires { self.old.full ≡ true }
        ensures closed { IfOk result (λ c. (self.new.full ≡ false) × HasAll self.old.state × (c.config ≡ self.old.state.config)
            × EndedWith c.config c.words self.old.state.items self.old.state.seen) }
        ensures why { IfErr result (CloseIsRefused self.old.state self.new.full self.new.state) }
    {
        if !self.member().task.has_all() {
            return Err(GateError::Order);
        }
        match Box::into_inner(self.take(alloc)).close() {
            Ok(closed) => Ok(closed),
            Err(back) => match Box::new(alloc, back) {
                Ok(member) => {
                    self.put(member);
                    Err(GateError::Busy)
                }
                Err(_) => Err(GateError::NoMemory),
            },
        }
    }

    /// Closes the gates, whose last task this is, and leaves the handle without one. Writes to `values` what each word that is asked for
    /// holds at the end, and 0 for a word that there isn't.
    ///
    /// # Errors
    ///
    /// Invalid unless there is one value for each word, Order unless the task rests and has all other numbers, and Busy if another handle has
    /// the gates still: then the task is as it was. NoMemory if another handle has the gates still, and there was no memory to keep the task: then the handle
    /// has none.
    pub fn close(
        &mut self,
        alloc: Global,
        asked: &[WordRecord],
        values: &mut [u64],
    ) -> Result<(), GateError>
        requires { self.old.full ≡ true }
        ensures closed { OnOk result ((self.new.full ≡ false) × HasAll self.old.state) }
        ensures words { OnOk result (ClosedWith self.old.state asked.now values.new) }
        ensures length { length values.new ≡ length values.old }
        ensures many { ¬ (length asked.now ≡ length values.old) → (result ≡ Err Invalid) × (self.new.full ≡ true) × (self.new.state ≡ self.old.state) }
        ensures why { length asked.now ≡ length values.old → IfErr result (CloseIsRefused self.old.state self.new.full self.new.state) }
    {
        if asked.len() != values.len() {
            return Err(GateError::Invalid);
        }
        let closed = self.take_closed(alloc)?;
        write_values(&closed, asked, values);
        Ok(())
    }
}
