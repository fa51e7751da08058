//! A first program at the gates: a writer keeps a backup out, and then the backup keeps the writer out. docs/library.md explains it.
#![tactic(auto)]

ghost use Rattle.std.specs.Prelude.{◌≡◌, Err, IfOk};
ghost use Rattle.vfs_gates.specs.GateError.TheVariants.{Again};

mod two_tasks;

use std::alloc::Global;
use std::sync::Wait;
use two_tasks::{change_while_held, start_while_frozen, write_while_read_only};
use vfs_gates::{Config, Gate, GateError, Gates};

/// The mount at which both work.
const MOUNT: u8 = 0;

/// The processor that both say they are on.
const CPU: u8 = 0;

/// The level that a write goes inside: SB_FREEZE_WRITE.
const LEVEL: u8 = 1;

/// A small file system: two tasks, one processor, one mount, and no tree to speak of.
const CONFIG: Config = Config {
    tasks: 2,
    processors: 1,
    mounts: 1,
    nodes: 2,
    capacity: 0,
};

fn main(rt: HostRuntime) -> anyhow::Result<()> {
    let alloc = rt.alloc();
    let (gates, mut writer) = Gates::new(alloc, CONFIG)?;
    let mut backup = writer.split(alloc, &gates)?;

    writer.want_write(&rt, &gates, MOUNT, CPU)?;
    let early = change_while_held(&rt, &gates, &mut backup, &mut writer, MOUNT);
    writer.drop_write(&gates, MOUNT, CPU)?;

    let late = write_while_read_only(&rt, &gates, &mut backup, &mut writer, MOUNT, CPU)?;
    backup.change_mount(&rt, &gates, MOUNT, false)?;

    println!(rt; "backup while the writer is inside: {}", name_of(early))?;
    println!(rt; "writer while the backup copies: {}", name_of(late))?;
    println!(rt;
        "writer while all is frozen: {}",
        name_of(start_frozen(&rt, alloc)?)
    )?;

    if let Err((refusal, _)) = writer.join(&gates, backup) {
        return Err(refusal.into());
    }
    let closed = match gates.close(writer) {
        Ok(closed) => closed,
        Err((refusal, _, _)) => return Err(refusal.into()),
    };
    println!(rt; "accesses left: {:?}", closed.gate_sum(Gate::Mount(MOUNT)))?;
    Ok(())
}

/// What a start answers while all is frozen, at gates of its own.
///
/// # Errors
///
/// NoMemory if there is none for the gates, and what `freeze` is refused with.
fn start_frozen<R: Wait>(rt: &R, alloc: Global) -> Result<Result<(), GateError>, GateError>
    ensures { IfOk result (λ late. late ≡ Err Again) }
{
    let (gates, mut writer) = Gates::new(alloc, CONFIG)?;
    let mut backup = writer.split(alloc, &gates)?;
    start_while_frozen(rt, &gates, &mut backup, &mut writer, LEVEL, CPU)
}

/// How a call ended, in a word.
fn name_of(answer: Result<(), GateError>) -> &'static str {
    match answer {
        Ok(()) => "ok",
        Err(refusal) => refusal.name(),
    }
}
