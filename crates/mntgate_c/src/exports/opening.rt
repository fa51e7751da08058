//! Gates opened and closed, and tasks made and joined.

ghost use Rattle.std.specs.Prelude.{◌≡◌, ◌++◌, true, false, Err, OnOk, OnErr, IfErr, length};
ghost use Rattle.access_model.specs.declared.errors.GateError.TheVariants.{Invalid, NoMemory, Order};
ghost use Rattle.gate_world.specs.Configs.{IsWithin};
ghost use Rattle.vfs_gates.specs.Ended.{HasAll, HasOpeningWords};
ghost use Rattle.vfs_gates.specs.Held.{Rests};
ghost use Rattle.vfs_gates.specs.Meetings.{Meets};
ghost use Rattle.vfs_gates.specs.Parts.{SplitOf};
ghost use Rattle.mntgate_c.specs.Closings.{CloseIsRefused, ClosedWith};
ghost use Rattle.mntgate_c.specs.Codes.{answer_of};
ghost use Rattle.mntgate_c.specs.Openings.{IsFirst, SplitIsRefused, config_of};

use crate::codes::code;
use crate::events::WordRecord;
use crate::handles::TaskHandle;
use crate::openings::ConfigRecord;
use std::alloc::Global;

/// Opens gates, and gives the handle, which has none, the task that has all other numbers to give. Where it is refused the handle has
/// none still.
#[unsafe(no_mangle)]
pub extern "C" fn mntgate_open(alloc: Global, task: &mut TaskHandle, named: &ConfigRecord) -> u32
    requires { task.old.full ≡ false }
    ensures full { OnOk (answer_of result) (task.new.full ≡ true) }
    ensures rests { OnOk (answer_of result) (Rests task.new.state) }
    ensures config { OnOk (answer_of result) (task.new.state.config ≡ config_of named.now) }
    // So it has number 0 and each other number to give, and none of them has done anything.
    ensures numbers { OnOk (answer_of result) (IsFirst task.new.state (config_of named.now)) }
    ensures words { OnOk (answer_of result) (HasOpeningWords task.new.state.config task.new.state.items) }
    ensures refused { OnErr (answer_of result) (task.new.full ≡ false) }
    ensures invalid { ¬ IsWithin (config_of named.now) → answer_of result ≡ Err Invalid }
    ensures memory { IsWithin (config_of named.now) → OnErr (answer_of result) (answer_of result ≡ Err NoMemory) }
{
    code(task.open(alloc, *named))
}

/// Splits off a task with the lowest number that this one has to give, for a handle that has none. EDEADLK unless the task rests, and EMFILE if
/// it has no number to give: both are as they were. ENOMEM if it has one and a growth was refused: the task has all its numbers still, and the
/// other handle has none.
#[unsafe(no_mangle)]
pub extern "C" fn mntgate_split(alloc: Global, task: &mut TaskHandle, other: &mut TaskHandle) -> u32
    requires this { task.old.full ≡ true }
    requires that { other.old.full ≡ false }
    ensures this { task.new.full ≡ true }
    ensures that { OnOk (answer_of result) (other.new.full ≡ true) }
    // So the new task has the table and the configuration of the old one, as `mntgate_join` asks.
    ensures made { OnOk (answer_of result) (SplitOf task.old.state task.new.state other.new.state) }
    ensures rests { OnOk (answer_of result) (Rests task.new.state × Rests other.new.state) }
    ensures refused { OnErr (answer_of result) (other.new.full ≡ false) }
    ensures why { IfErr (answer_of result) (SplitIsRefused task.old.state task.new.state) }
{
    code(task.split_into(alloc, other))
}

/// Takes back the numbers of another task of the same gates, whose handle has none then. EDEADLK, with both as they were, unless both
/// rest.
#[unsafe(no_mangle)]
pub extern "C" fn mntgate_join(alloc: Global, task: &mut TaskHandle, other: &mut TaskHandle) -> u32
    requires this { task.old.full ≡ true }
    requires that { other.old.full ≡ true }
    requires same { (other.old.state.table ≡ task.old.state.table) × (other.old.state.config ≡ task.old.state.config) }
    ensures full { task.new.full ≡ true }
    ensures joined { OnOk (answer_of result) ((other.new.full ≡ false) × Rests task.old.state × Rests other.old.state
        × (task.new.state ≡ record task.old.state { items = task.old.state.items ++ other.old.state.items; seen = task.old.state.seen ++ other.old.state.seen })) }
    ensures refused { OnErr (answer_of result) ((answer_of result ≡ Err Order) × (other.new.full ≡ true) × (task.new.state ≡ task.old.state)
        × (other.new.state ≡ other.old.state) × ¬ (Rests task.old.state × Rests other.old.state)) }
{
    code(task.join(alloc, other))
}

/// Brings two tasks of the same gates together: what either has done stands in one state, which both have seen from then on. Nothing else of them
/// changes, and no word does.
#[unsafe(no_mangle)]
pub extern "C" fn mntgate_meet(task: &mut TaskHandle, other: &mut TaskHandle)
    requires this { task.old.full ≡ true }
    requires that { other.old.full ≡ true }
    requires same { (other.old.state.table ≡ task.old.state.table) × (other.old.state.config ≡ task.old.state.config) }
    ensures full { (task.new.full ≡ true) × (other.new.full ≡ true) }
    ensures met { Meets task.old.state other.old.state task.new.state other.new.state }
{
    let beside = other.member();
    task.member().meet(beside);
}

/// Closes the gates, whose last task this is, leaves the handle without one, and writes to `values` what the words hold at the end that
/// are asked for, and 0 for one that there isn't. EDEADLK, with the task as it was, unless it rests and has all other numbers, and EINVAL
/// where there isn't one value for each word. What the header asks of C leaves no other refusal: EBUSY, with the task as it was, tells of
/// another handle that has the gates still, and ENOMEM that there was no memory to keep that task, so that the handle has none.
#[unsafe(no_mangle)]
pub extern "C" fn mntgate_close_words(
    alloc: Global,
    task: &mut TaskHandle,
    asked: &[WordRecord],
    values: &mut [u64],
) -> u32
    requires { task.old.full ≡ true }
    ensures closed { OnOk (answer_of result) ((task.new.full ≡ false) × HasAll task.old.state) }
    ensures words { OnOk (answer_of result) (ClosedWith task.old.state asked.now values.new) }
    ensures length { length values.new ≡ length values.old }
    ensures many { ¬ (length asked.now ≡ length values.old) → (answer_of result ≡ Err Invalid) × (task.new.full ≡ true) × (task.new.state ≡ task.old.state) }
    ensures why { length asked.now ≡ length values.old → IfErr (answer_of result) (CloseIsRefused task.old.state task.new.full task.new.state) }
{
    code(task.close(alloc, asked, values))
}
