//! Where each operation begins, or why it can't: a table each for its numbers, for what its task holds, and for its first phase.

ghost use Rattle.std.specs.Prelude.{◌≡◌, ◌≤◌, true};
ghost use Rattle.gate_world.specs.Operations.{is_level_number, is_writer};
ghost use Rattle.gate_world.specs.Accesses.{held_in};
ghost use Rattle.gate_world.specs.Beginnings.{beginning, first_phase, is_in_range, is_in_order, is_within_room, refusal};
ghost use Rattle.gate_transitions.specs.Answers.{unless_refused};

use access_model::GateError;
use composite_ops::{ClosePhase, WritePhase};
use freeze_levels::{Freeze, Thaw};
use gate_world::{Accesses, Config, Op, Phase};
use gated_tree::{Create, Grow, Mark, MoveTo, OpenFile, Remove, Snapshot, TreePhase};
use mount_counts::{Change, MountPhase, Remount, Want};
use percpu_rwsem::{Callback, DownRead, UpRead};

/// Whether an operation may begin of a task that holds these accesses, or the first reason why not, in this order. Order where an operation
/// is under way; Invalid where a number of the operation is out of range; Order where the task holds what the operation must not find held, or
/// doesn't hold what it gives back; TooMany where the task would get its 1,025th access at a mount, or have a file open twice.
#[inline(always)]
pub fn may_begin(op: Op, config: &Config, under_way: bool, held: &Accesses) -> Result<(), GateError>
    requires mounts { config.now.mounts ≤ 8 }
    requires nodes { config.now.nodes ≤ 64 }
    ensures { result ≡ unless_refused (refusal config.now under_way (held_in held.now) op) }
{
    if under_way {
        Err(GateError::Order)
    } else if !is_in_range(op, config) {
        Err(GateError::Invalid)
    } else if !is_in_order(op, config, held) {
        Err(GateError::Order)
    } else if !is_within_room(op, config, held) {
        Err(GateError::TooMany)
    } else {
        Ok(())
    }
}

/// Returns the first phase of an operation that may begin, or why it may not, as `may_begin` says.
#[inline(always)]
pub fn begin(
    op: Op,
    config: &Config,
    task: u8,
    under_way: bool,
    held: &Accesses,
) -> Result<Phase, GateError>
    requires mounts { config.now.mounts ≤ 8 }
    requires nodes { config.now.nodes ≤ 64 }
    ensures { result ≡ beginning config.now task under_way (held_in held.now) op }
{
    may_begin(op, config, under_way, held)?;
    Ok(first_phase(op, config, task))
}

/// Whether its numbers are in range.
#[inline(always)]
fn is_in_range(op: Op, config: &Config) -> bool
    ensures { result ≡ is_in_range config.now op }
{
    match op {
        Op::Want { mount, cpu, .. }
        | Op::DropMount { mount, cpu }
        | Op::WantWrite { mount, cpu }
        | Op::DropWrite { mount, cpu } => mount < config.mounts && cpu < config.processors,
        Op::ChangeMount { mount, .. } => mount < config.mounts,
        Op::Start { level, cpu, .. } | Op::End { level, cpu } => {
            is_level(level) && cpu < config.processors
        }
        Op::Callback { level } => is_level(level),
        Op::Create { dir: node, .. }
        | Op::Remove { file: node }
        | Op::Fault { file: node }
        | Op::Flush { file: node }
        | Op::Open { file: node } => node < config.nodes,
        Op::Grow { file, blocks } => file < config.nodes && 0 < blocks,
        Op::MoveTo { file, dir } => file < config.nodes && dir < config.nodes,
        Op::Close { file, cpu, .. } => file < config.nodes && cpu < config.processors,
        _ => true,
    }
}

/// Whether the task holds what the operation gives back or works on, and nothing that it must not find held.
#[inline(always)]
fn is_in_order(op: Op, config: &Config, held: &Accesses) -> bool
    requires mounts { config.now.mounts ≤ 8 }
    requires nodes { config.now.nodes ≤ 64 }
    requires range { is_in_range config.now op ≡ true }
    ensures { result ≡ is_in_order config.now (held_in held.now) op }
{
    match op {
        Op::DropMount { mount, .. } => held.mounts[mount as usize] > 0,
        Op::ChangeMount { .. }
        | Op::RemountSb { .. }
        | Op::WantWrite { .. }
        | Op::Freeze { .. }
        | Op::Thaw { .. }
        | Op::Snapshot { .. } => held.is_in_no_level(),
        Op::Start { level, .. } => held.is_in_none_from(level),
        Op::End { level, .. } => held.levels[level as usize],
        Op::DropWrite { mount, .. } => held.levels[1] && held.mounts[mount as usize] > 0,
        Op::Create { .. } | Op::Remove { .. } | Op::Grow { .. } | Op::MoveTo { .. } => {
            may_write(config, held)
        }
        Op::Fault { .. } => held.levels[2] && held.holds_some_mount(config.mounts),
        Op::Flush { .. } => held.levels[3],
        Op::Close { file, .. } => held.is_in_none_from(3) && held.files[file as usize],
        _ => true,
    }
}

/// Whether the task may have one access more at its mount, or has its file not open yet.
#[inline(always)]
fn is_within_room(op: Op, config: &Config, held: &Accesses) -> bool
    requires mounts { config.now.mounts ≤ 8 }
    requires nodes { config.now.nodes ≤ 64 }
    requires range { is_in_range config.now op ≡ true }
    ensures { result ≡ is_within_room (held_in held.now) op }
{
    let _ = config;
    match op {
        Op::Want { mount, .. } | Op::WantWrite { mount, .. } => held.mounts[mount as usize] < 1024,
        Op::Open { file } => !held.files[file as usize],
        _ => true,
    }
}

/// Returns the first phase of an operation that begins.
#[inline(always)]
pub fn first_phase(op: Op, config: &Config, task: u8) -> Phase
    ensures { result ≡ first_phase config.now task op }
{
    let (cpus, nodes, room) = (config.processors, config.nodes, config.capacity);
    match op {
        Op::Want { mount, cpu, wait } => Phase::Mounts(MountPhase::Want(Want::new(
            mount, cpu, wait,
        ))),
        Op::DropMount { mount, cpu } => Phase::Mounts(MountPhase::Drop { mount, cpu }),
        Op::ChangeMount {
            mount,
            read_only,
            wait,
        } => { Phase::Mounts(MountPhase::Change(Change::new(mount, read_only, wait, task, cpus))) }
        Op::RemountSb { read_only } => {
            Phase::Remounts(Remount::new(read_only, task, cpus, config.mounts, nodes))
        }
        Op::Start { level, cpu, wait } => Phase::DownReads(DownRead::new(level, cpu, task, wait)),
        Op::End { level, cpu } => Phase::UpReads(UpRead { level, cpu }),
        Op::WantWrite { mount, cpu } => Phase::Writes(WritePhase::new(mount, cpu, task)),
        Op::DropWrite { mount, cpu } => Phase::Writes(WritePhase::Drops { mount, cpu }),
        Op::Callback { level } => Phase::Callbacks(Callback::new(level, config.tasks)),
        Op::Freeze { holder } => {
            Phase::Freezes(Freeze::new(holder, task, config.tasks, cpus, nodes))
        }
        Op::Thaw { holder } => Phase::Thaws(Thaw::new(holder, task)),
        Op::Create { dir, kind } => Phase::Trees(TreePhase::Create(Create::new(dir, kind, nodes))),
        Op::Remove { file } => Phase::Trees(TreePhase::Remove(Remove::new(file))),
        Op::Grow { file, blocks } => Phase::Trees(TreePhase::Grow(Grow::new(file, blocks, room))),
        Op::MoveTo { file, dir } => Phase::Trees(TreePhase::MoveTo(MoveTo::new(file, dir))),
        Op::Fault { file } => Phase::Trees(TreePhase::Mark(Mark::new(file, true))),
        Op::Flush { file } => Phase::Trees(TreePhase::Mark(Mark::new(file, false))),
        Op::Open { file } => Phase::Trees(TreePhase::OpenFile(OpenFile::new(file))),
        Op::Close { file, cpu, wait } => Phase::Closes(ClosePhase::new(file, cpu, task, wait)),
        Op::Snapshot { wait } => Phase::Trees(TreePhase::Snapshot(Snapshot::new(
            wait, task, nodes,
        ))),
    }
}

/// Whether there is such a level.
#[inline(always)]
fn is_level(level: u8) -> bool
    ensures { result ≡ is_level_number level }
{
    0 < level && level < 4
}

/// Whether a task may change the tree: it is inside level 1, and holds an access at some mount.
fn may_write(config: &Config, held: &Accesses) -> bool
    requires { config.now.mounts ≤ 8 }
    ensures { result ≡ is_writer config.now (held_in held.now) }
{
    held.levels[1] && held.holds_some_mount(config.mounts)
}
