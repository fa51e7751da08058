//! A program that sends word. A writer and a backup work in two threads. After each write the writer tells the backup, over a channel, how often it has
//! written by then. The backup copies each time that word comes, and its copy has all that it was told of. docs/library.md explains it.
#![tactic(auto)]

ghost use Rattle.std.specs.Prelude.{◌≡◌, IfOk};
ghost use Rattle.vfs_gates.specs.TaskStates.{IsFrom};
ghost use Rattle.example_message.specs.Words.{AreThese, BackedUp};

mod backup;
mod word;
mod writer;

use backup::{TreeCopy, back_up};
use std::alloc::{AllocError, Global};
use std::marker::Brand;
use std::sync::Wait;
use std::thread;
use std::thread::Threads;
use vfs_gates::{Config, Gate, GateError, Gates, Task};
use word::SharedGates;
use writer::write;

/// The mount at which both work.
const MOUNT: u8 = 0;

/// How often the writer writes, a block each time.
const WRITES: u32 = 30;

/// A small file system: two tasks, a processor, a mount, the root and one file, and a block for each write.
const CONFIG: Config = Config {
    tasks: 2,
    processors: 1,
    mounts: 1,
    nodes: 2,
    capacity: 30,
};

/// A task that a thread gives back, and how its work ended.
type Ended<T> = (Task, Result<T, GateError>);

fn main(rt: HostRuntime) -> anyhow::Result<()> {
    let alloc = rt.alloc();
    let (gates, mut writer) = Gates::new(alloc, CONFIG)?;
    let backup = writer.split(alloc, &gates)?;
    let ((backup, copied), (mut writer, written)) = work::<HostRuntime, Brand>(
        &rt, alloc, &gates, writer, backup,
    )?;
    written?;
    if let Some(copy) = copied? {
        println!(rt; "the writer told of {} writes", copy.writes)?;
        println!(rt; "the last copy has {} blocks", copy.blocks)?;
    }

    if let Err((refusal, _)) = writer.join(&gates, backup) {
        return Err(refusal.into());
    }
    let closed = match gates.close(writer) {
        Ok(closed) => closed,
        Err((refusal, _, _)) => return Err(refusal.into()),
    };
    println!(rt; "accesses left: {:?}", closed.gate_sum(Gate::Mount(MOUNT)))?;
    Ok(())
}

/// Lets the backup and the writer work, each in a thread, with a channel between them. Returns both tasks, and how their work ended: the backup's with
/// its last copy, if any word came.
///
/// If no thread can be made, `join` calls its second closure first. So that is the writer, which waits for no word.
///
/// # Errors
///
/// AllocError if there is no memory for the channel; then nothing was done.
fn work<R: Threads + Wait + Sync, G: SharedGates + Send>(
    rt: &R,
    alloc: Global,
    gates: &Gates,
    writer: Task,
    backup: Task,
) -> Result<(Ended<Option<TreeCopy>>, Ended<()>), AllocError>
    requires these { AreThese G.table G.config gates.now }
    requires from { IsFrom writer gates.now × IsFrom backup gates.now }
    ensures from { IfOk result (λ ended. IsFrom ended.0.0 gates.now × IsFrom ended.1.0 gates.now) }
    ensures backed_up { IfOk result (λ ended. BackedUp gates.now.words.config ended.0) }
{
    let (to, from) = crossbeam_channel::unbounded(alloc)?;
    Ok(thread::join(
        rt,
        || back_up::<R, G>(rt, gates, backup, from),
        || write::<R, G>(rt, gates, writer, to),
    ))
}
