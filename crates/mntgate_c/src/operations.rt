//! Operations as records of numbers.

ghost use Rattle.std.specs.Prelude.{◌≡◌, ◌<◌, ◌≤◌, true, Some, None, Err, OnOk, OnErr};
ghost use Rattle.access_model.specs.declared.errors.GateError.TheVariants.{Invalid};
ghost use Rattle.gate_transitions.specs.Answers.{unless_refused};
ghost use Rattle.gate_steps.specs.call_events.Runs.{OpUnderWay};
ghost use Rattle.gate_world.specs.declared.operations.Op.{Op as OpType};
ghost use Rattle.vfs_gates.specs.TaskStates.{refusal_at};
ghost use Rattle.mntgate_c.specs.Operations.{kind_of, op_at};

use crate::codes::holder;
use crate::handles::TaskHandle;
use vfs_gates::{GateError, Kind, Op};

/// An operation that C names: its kind with what it is given. A field that the kind doesn't read may have any value.
#[repr(C)]
#[derive(Clone, Copy)]
pub struct OpRecord {
    /// 0 want, 1 drop_mount, 2 change_mount, 3 remount_sb, 4 start, 5 end, 6 want_write, 7 drop_write, 8 callback, 9 freeze, 10 thaw,
    /// 11 create, 12 remove, 13 grow, 14 move_to, 15 fault, 16 flush, 17 open_file, 18 close_file, 19 snapshot.
    pub kind: u8,
    /// The mount, the level, the file, or the directory of a create.
    pub number: u8,
    /// The processor, or the directory of a move.
    pub other: u8,
    /// To read-only, not to writable; held for the kernel, not for user space; a directory, not a file.
    pub choice: bool,
    /// Whether it waits for others, where it is one that may answer `Again` instead.
    pub wait: bool,
    /// By how many blocks a file grows.
    pub blocks: u32,
}

/// Returns the kind of a node: a directory, or else a file.
pub fn kind(is_dir: bool) -> Kind
    ensures { result ≡ kind_of is_dir }
{
    if is_dir { Kind::Dir } else { Kind::File }
}

/// The operation that C names; None where there is none of that kind.
fn operation(named: OpRecord) -> Option<Op>
    ensures { result ≡ op_at named }
{
    if named.kind < 11 {
        gate_operation(named)
    } else {
        tree_operation(named)
    }
}

/// The operation at a mount, at a level, or of the whole file system.
fn gate_operation(named: OpRecord) -> Option<Op>
    requires { named.kind < 11 }
    ensures { result ≡ op_at named }
{
    let (number, cpu, choice, wait) = (named.number, named.other, named.choice, named.wait);
    let op = match named.kind {
        0 => Op::Want {
            mount: number,
            cpu,
            wait,
        },
        1 => Op::DropMount { mount: number, cpu },
        2 => Op::ChangeMount {
            mount: number,
            read_only: choice,
            wait,
        },
        3 => Op::RemountSb { read_only: choice },
        4 => Op::Start {
            level: number,
            cpu,
            wait,
        },
        5 => Op::End { level: number, cpu },
        6 => Op::WantWrite { mount: number, cpu },
        7 => Op::DropWrite { mount: number, cpu },
        8 => Op::Callback { level: number },
        9 => Op::Freeze {
            holder: holder(choice),
        },
        _ => Op::Thaw {
            holder: holder(choice),
        },
    };
    Some(op)
}

/// The operation at the tree.
fn tree_operation(named: OpRecord) -> Option<Op>
    requires { 11 ≤ named.kind }
    ensures { result ≡ op_at named }
{
    let (number, other, wait) = (named.number, named.other, named.wait);
    let op = match named.kind {
        11 => Op::Create {
            dir: number,
            kind: kind(named.choice),
        },
        12 => Op::Remove { file: number },
        13 => Op::Grow {
            file: number,
            blocks: named.blocks,
        },
        14 => Op::MoveTo {
            file: number,
            dir: other,
        },
        15 => Op::Fault { file: number },
        16 => Op::Flush { file: number },
        17 => Op::Open { file: number },
        18 => Op::Close {
            file: number,
            cpu: other,
            wait,
        },
        19 => Op::Snapshot { wait },
        _ => return None,
    };
    Some(op)
}

impl TaskHandle {
    /// Begins an operation; no word is changed.
    ///
    /// # Errors
    ///
    /// Then the task is as it was. Invalid if there is no operation of that kind; else as `Task::begin` is refused.
    pub fn begin(&mut self, named: OpRecord) -> Result<(), GateError>
        requires { self.old.full ≡ true }
        ensures full { self.new.full ≡ true }
        ensures answer { (of : OpType) → op_at named ≡ Some of → result ≡ unless_refused (refusal_at of self.old.state) }
        ensures goes { (of : OpType) → op_at named ≡ Some of → OnOk result (OpUnderWay of self.old.state self.new.state) }
        ensures unknown { op_at named ≡ None → result ≡ Err Invalid }
        ensures refused { OnErr result (self.new.state ≡ self.old.state) }
    {
        match operation(named) {
            Some(op) => self.member().task.begin(op),
            None => Err(GateError::Invalid),
        }
    }
}
