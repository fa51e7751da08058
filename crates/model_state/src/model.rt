//! The model itself: a state that changes by whole actions alone, each where it is allowed.
#![tactic(auto, unfolding(crate::specs::Shown::bounded_state_of))]

ghost use Rattle.std.specs.Prelude.{◌≡◌, ℕ, ◌≤◌, ◌<◌, ◌+◌, ◌^◌, ◌↔◌, IsTrue, option_map, vec_len};
ghost use Rattle.access_model.specs.States.{IsLevel, size_of};
ghost use Rattle.access_model.specs.Actions.{grown, moved, marked, after_remove, after_close};
ghost use Rattle.model_state.specs.Limits.{AreLimits};

use access_model::{Action, Gate, GateError, Holder, Holders, Kind, NodeInfo};
use std::alloc::Global;

/// How many accesses a task may hold at one mount.
const MAX_ACCESSES: u16 = 1024;

/// What one task holds: its accesses at each mount, whether it is inside each freeze level, and which files it has open. Levels count
/// from 1, so entry 0 stays false.
#[derive(Clone, Copy)]
struct Accesses {
    mounts: [u16; 8],
    levels: [bool; 4],
    files: [bool; 64],
}

impl Accesses {
    ghost use Rattle.std.specs.Prelude.{false, slice_index, slice_index_or};
    ghost use Rattle.access_model.specs.declared.actions.Action.TheVariants.{Grant, Return};
    ghost use Rattle.finite_sums.specs.Sums.{update};
    ghost use Rattle.access_model.specs.Actions.{mounts_after, levels_after};
    ghost use Rattle.model_state.specs.Shown.{HasRoom, HasAccess};

    /// Counts one access more.
    fn grant(&mut self, gate: Gate)
        requires { HasRoom self.old gate }
        ensures mounts { slice_index self.new.mounts ≡ mounts_after (Grant gate) (slice_index self.old.mounts) }
        ensures levels { (λ i. slice_index_or self.new.levels i false) ≡
            levels_after (Grant gate) (λ i. slice_index_or self.old.levels i false) }
        ensures files { self.new.files ≡ self.old.files }
    {
        match gate {
            Gate::Mount(mount) => self.mounts[mount as usize] += 1,
            Gate::Level(level) => self.levels[level as usize] = true,
        }
    }

    /// Counts one access less.
    fn give_back(&mut self, gate: Gate)
        requires { HasAccess self.old gate }
        ensures mounts { slice_index self.new.mounts ≡ mounts_after (Return gate) (slice_index self.old.mounts) }
        ensures levels { (λ i. slice_index_or self.new.levels i false) ≡
            levels_after (Return gate) (λ i. slice_index_or self.old.levels i false) }
        ensures files { self.new.files ≡ self.old.files }
    {
        match gate {
            Gate::Mount(mount) => self.mounts[mount as usize] -= 1,
            Gate::Level(level) => self.levels[level as usize] = false,
        }
    }

    /// Notes that a file is open, or that it isn't.
    fn set_open(&mut self, node: u8, is_open: bool)
        requires { node < 64 }
        ensures mounts { self.new.mounts ≡ self.old.mounts }
        ensures levels { self.new.levels ≡ self.old.levels }
        ensures files { (λ n. slice_index_or self.new.files n false) ≡ update (λ n. slice_index_or self.old.files n false) node is_open }
    {
        self.files[node as usize] = is_open;
    }
}

/// A file gets larger, and dirty.
fn grow(node: &mut Option<NodeInfo>, blocks: u32)
    requires { size_of node.old + blocks < 2 ^ 32 }
    ensures { node.new ≡ option_map (grown blocks) node.old }
{
    if let Some(info) = node {
        info.size += blocks;
        info.dirty = true;
    }
}

/// A file gets another parent.
fn move_to(node: &mut Option<NodeInfo>, dir: u8)
    ensures { node.new ≡ option_map (moved dir) node.old }
{
    if let Some(info) = node {
        info.parent = dir;
    }
}

/// A file is removed, which so many tasks have open.
fn unlink(node: &mut Option<NodeInfo>, openers: u64)
    ensures { node.new ≡ after_remove openers node.old }
{
    if openers == 0 {
        *node = None;
    } else if let Some(info) = node {
        info.dirty = false;
        info.removed = true;
    }
}

/// A file is closed by one of so many tasks that have it open.
fn close(node: &mut Option<NodeInfo>, openers: u64)
    ensures { node.new ≡ after_close openers node.old }
{
    if openers == 1 && matches!(node, Some(info) if info.removed) {
        *node = None;
    }
}

/// A file becomes dirty or clean.
fn mark(node: &mut Option<NodeInfo>, dirty: bool)
    ensures { node.new ≡ option_map (marked dirty) node.old }
{
    if let Some(info) = node {
        info.dirty = dirty;
    }
}

/// Who holds which access, which read-only flags stand, how far a freeze has come, and the tree.
///
/// It stands for what the writer counts of `struct mount` and the semaphores of `sb_writers` are kept for, without either:
/// contracts see it as a `BoundedState`, by `bounded_state_of`.
#[derive(Drop)]
pub struct Model {
    tasks: u8,
    mounts: u8,
    capacity: u32,
    accesses: Vec<Accesses>,
    mount_ro: [bool; 8],
    sb_ro: bool,
    stage: u8,
    holders: Holders,
    passed: u8,
    nodes: Vec<Option<NodeInfo>>,
    ghost some_tasks: { 1 ≤ tasks },
    ghost few_tasks: { tasks ≤ 64 },
    ghost few_mounts: { mounts ≤ 8 },
    ghost each_task: { vec_len accesses ≡ tasks },
    ghost few_nodes: { vec_len nodes ≤ 64 },
    ghost small_capacity: { capacity < 2 ^ 32 },
}

impl Model {
    ghost use Rattle.std.specs.Prelude.{◌⊎◌, true, false, IsOk, IfOk, IfErr, OnOk, OnErr};
    ghost use Rattle.access_model.specs.declared.actions.Gate.TheVariants.{Mount, Level};
    ghost use Rattle.access_model.specs.Holders.{held_by};
    ghost use Rattle.access_model.specs.States.{NobodyHolds, IsClean, IsFile, IsDirectory, used_blocks, IsLinkedFile, NoneRemoved, is_removed, openers};
    ghost use Rattle.access_model.specs.declared.errors.GateError.TheVariants.{Invalid, NoMemory};
    ghost use Rattle.access_model.specs.declared.actions.Action.TheVariants.{Grant, Return};
    ghost use Rattle.access_model.specs.Actions.{IsWriter, HoldsSomeMount, MayStage, MayDo, IsAllowed};
    ghost use Rattle.model_state.specs.Shown.{limits_of, state_of, bounded_state_of, opened, bounded_state_after};

    /// A model with nothing held, no flag set, nothing frozen, and the root directory alone.
    ///
    /// It has `tasks` tasks, 1 to 64, `mounts` mounts, 1 to 8, and `nodes` nodes, 2 to 64, each numbered from 0, and all
    /// files together may have `capacity` blocks. Other numbers are Invalid, whatever memory there is; where they are
    /// right and a growth of memory is refused, the answer is NoMemory.
    pub fn new(
        alloc: Global,
        tasks: u8,
        mounts: u8,
        nodes: u8,
        capacity: u32,
    ) -> Result<Model, GateError>
        ensures opens { IfOk result (λ model. bounded_state_of model ≡ opened tasks mounts nodes capacity) }
        ensures within { OnOk result (AreLimits tasks mounts nodes) }
        ensures invalid { ¬ AreLimits tasks mounts nodes → result ≡ Err Invalid }
        ensures memory { AreLimits tasks mounts nodes → IfErr result (λ e. e ≡ NoMemory) }
    {
        if !are_limits(tasks, mounts, nodes) {
            return Err(GateError::Invalid);
        }
        let nothing = Accesses {
            mounts: [0; 8],
            levels: [false; 4],
            files: [false; 64],
        };
        let mut tree = vec![in alloc; None; nodes as usize]?;
        tree[0] = Some(NodeInfo {
            kind: Kind::Dir,
            parent: 0,
            size: 0,
            dirty: false,
            removed: false,
        });
        Ok(Model {
            tasks,
            mounts,
            capacity,
            accesses: vec![in alloc; nothing; tasks as usize]?,
            mount_ro: [false; 8],
            sb_ro: false,
            stage: 0,
            holders: Holders::none(),
            passed: 0,
            nodes: tree,
        })
    }

    /// Whether the task may do the action now: false for a task that there is not, and where a number in the action is out
    /// of range.
    pub fn allows(&self, task: u8, action: &Action) -> bool
        ensures { IsTrue result ↔ IsAllowed (limits_of self.now) (state_of self.now) task action.now }
    {
        if task >= self.tasks {
            return false;
        }
        match *action {
            Action::Grant(gate) => self.may_grant(task, gate),
            Action::Return(gate) => self.has_access(task, gate),
            Action::MountRo(mount) => mount < self.mounts && self.is_mount_free(mount),
            Action::MountRw(mount) => mount < self.mounts,
            Action::SbRo => self.stage == 0 && self.is_every_mount_free() && self.is_none_removed(),
            Action::SbRw => self.stage == 0,
            Action::Stage(stage) => self.may_stage(stage),
            Action::Hold(holder) => self.stage == 4 && !self.holders.has(holder),
            Action::Leave(holder) => self.stage == 4 && self.holders.has(holder),
            Action::Pass(level) => self.may_pass(level),
            Action::Reopen(level) => { is_level(level) && self.stage == 0 && self.passed == level }
            Action::Create { node, dir, .. } => {
                self.is_writer(task) && self.is_free(node) && self.is_directory(dir)
            }
            Action::Remove(node) => self.is_writer(task) && self.is_linked(node),
            Action::Grow { node, blocks } => {
                self.is_writer(task) && self.is_linked(node) && self.has_room(blocks)
            }
            Action::MoveTo { node, dir } => {
                self.is_writer(task) && self.is_linked(node) && self.is_directory(dir)
            }
            Action::Dirty(node) => self.may_dirty(task) && self.is_linked(node),
            Action::Clean(node) => self.may_clean(task) && self.is_file(node),
            Action::Open(node) => self.is_linked(node) && !self.has_file(task, node),
            Action::Close(node) => self.has_file(task, node) && self.may_close(task, node),
        }
    }

    /// Does the action, where `allows` says that the task may do it now. Any other is Invalid, and changes nothing. Takes no
    /// memory.
    pub fn apply(&mut self, task: u8, action: &Action) -> Result<(), GateError>
        ensures answer { IsOk result ↔ IsAllowed (limits_of self.old) (state_of self.old) task action.now }
        ensures done { OnOk result (bounded_state_of self.new ≡ bounded_state_after (bounded_state_of self.old) task action.now) }
        ensures invalid { IfErr result (λ e. e ≡ Invalid) }
        ensures unchanged { OnErr result (self.new ≡ self.old) }
    {
        if !self.allows(task, action) {
            return Err(GateError::Invalid);
        }
        self.carry_out(task, action);
        Ok(())
    }

    /// The accesses that a task holds at a mount, at most 1,024: its part of the mount's writer count, which
    /// `mnt_get_write_access` raises. 0 where there is no such task or mount.
    pub fn held_mount(&self, task: u8, mount: u8) -> u16
        ensures held { task < (limits_of self.now).tasks → mount < (limits_of self.now).mounts →
            result ≡ (state_of self.now).mounts task mount }
        ensures out_of_range { ((limits_of self.now).tasks ≤ task) ⊎ ((limits_of self.now).mounts ≤ mount) → result ≡ 0 }
    {
        if task < self.tasks && mount < self.mounts {
            self.accesses[task as usize].mounts[mount as usize]
        } else {
            0
        }
    }

    /// Whether a task is inside a freeze level: 1 (`sb_start_write`), 2 (`sb_start_pagefault`) or 3 (`sb_start_intwrite`).
    /// False where there is no such task or level.
    pub fn held_level(&self, task: u8, level: u8) -> bool
        ensures held { task < (limits_of self.now).tasks → IsLevel level → result ≡ (state_of self.now).levels task level }
        ensures out_of_range { ((limits_of self.now).tasks ≤ task) ⊎ ((level ≡ 0) ⊎ (3 < level)) → result ≡ false }
    {
        task < self.tasks && is_level(level) && self.accesses[task as usize].levels[level as usize]
    }

    /// Whether a task has a file open. False where there is no such task or node.
    pub fn has_open(&self, task: u8, node: u8) -> bool
        ensures open { task < (limits_of self.now).tasks → node < (limits_of self.now).nodes →
            result ≡ (state_of self.now).opens task node }
        ensures out_of_range { ((limits_of self.now).tasks ≤ task) ⊎ ((limits_of self.now).nodes ≤ node) → result ≡ false }
    {
        task < self.tasks
            && (node as usize) < self.nodes.len()
            && self.accesses[task as usize].files[node as usize]
    }

    /// A mount's own read-only flag (`MNT_READONLY`), whatever the superblock's is; false where there is no such mount.
    pub fn mount_ro(&self, mount: u8) -> bool
        ensures flag { mount < (limits_of self.now).mounts → result ≡ (state_of self.now).mount_ro mount }
        ensures out_of_range { (limits_of self.now).mounts ≤ mount → result ≡ false }
    {
        mount < self.mounts && self.mount_ro[mount as usize]
    }

    /// Whether the superblock is read-only (`SB_RDONLY`).
    pub fn sb_ro(&self) -> bool
        ensures { result ≡ (state_of self.now).sb_ro }
    {
        self.sb_ro
    }

    /// The stage of the freeze, from 0, where nothing is frozen, to 4, where all is (`s_writers.frozen`).
    pub fn stage(&self) -> u8
        ensures { result ≡ (state_of self.now).stage }
    {
        self.stage
    }

    /// Whether the kernel or user space holds a freeze: nothing is thawed until neither does.
    pub fn holds(&self, holder: Holder) -> bool
        ensures { result ≡ held_by (state_of self.now).holders holder }
    {
        self.holders.has(holder)
    }

    /// How many levels, from level 1 on, a freeze has closed and not yet opened again: 0 to 3.
    pub fn passed(&self) -> u8
        ensures { result ≡ (state_of self.now).passed }
    {
        self.passed
    }

    /// A node of the tree, with its kind, parent, size, dirty mark and removed mark; None where it is free or there is none of that number.
    pub fn tree(&self, node: u8) -> Option<NodeInfo>
        ensures node { node < (limits_of self.now).nodes → result ≡ (state_of self.now).tree node }
        ensures out_of_range { (limits_of self.now).nodes ≤ node → result ≡ None }
    {
        if (node as usize) < self.nodes.len() {
            self.nodes[node as usize]
        } else {
            None
        }
    }

    /// Does an action that the task may do.
    fn carry_out(&mut self, task: u8, action: &Action)
        requires { IsAllowed (limits_of self.old) (state_of self.old) task action.now }
        ensures { bounded_state_of self.new ≡ bounded_state_after (bounded_state_of self.old) task action.now }
    {
        match *action {
            Action::Grant(gate) => self.accesses[task as usize].grant(gate),
            Action::Return(gate) => self.accesses[task as usize].give_back(gate),
            Action::MountRo(mount) => self.mount_ro[mount as usize] = true,
            Action::MountRw(mount) => self.mount_ro[mount as usize] = false,
            Action::SbRo => self.sb_ro = true,
            Action::SbRw => self.sb_ro = false,
            Action::Stage(stage) => self.stage = stage,
            Action::Hold(holder) => self.holders = self.holders.with(holder),
            Action::Leave(holder) => self.holders = self.holders.without(holder),
            Action::Pass(level) => self.passed = level,
            Action::Reopen(level) => self.passed = level - 1,
            Action::Create { node, dir, kind } => {
                self.nodes[node as usize] = Some(NodeInfo {
                    kind,
                    parent: dir,
                    size: 0,
                    dirty: false,
                    removed: false,
                });
            }
            Action::Remove(node) => {
                let openers = self.openers(node);
                unlink(&mut self.nodes[node as usize], openers);
            }
            Action::Grow { node, blocks } => grow(&mut self.nodes[node as usize], blocks),
            Action::MoveTo { node, dir } => move_to(&mut self.nodes[node as usize], dir),
            Action::Dirty(node) => mark(&mut self.nodes[node as usize], true),
            Action::Clean(node) => mark(&mut self.nodes[node as usize], false),
            Action::Open(node) => self.accesses[task as usize].set_open(node, true),
            Action::Close(node) => {
                let openers = self.openers(node);
                self.accesses[task as usize].set_open(node, false);
                close(&mut self.nodes[node as usize], openers);
            }
        }
    }

    /// Whether a task is inside some mount.
    fn holds_some_mount(&self, task: u8) -> bool
        requires { task < (limits_of self.now).tasks }
        ensures { IsTrue result ↔ HoldsSomeMount (limits_of self.now) (state_of self.now) task }
    {
        let held = self.accesses[task as usize].mounts;
        for mount in 0..self.mounts {
            if held[mount as usize] > 0 {
                return true;
            }
        }
        false
    }

    /// Whether nobody holds an access at a mount.
    fn is_mount_free(&self, mount: u8) -> bool
        requires { mount < (limits_of self.now).mounts }
        ensures { IsTrue result ↔ NobodyHolds (limits_of self.now) (state_of self.now) (Mount mount) }
    {
        for held in &self.accesses {
            if held.mounts[mount as usize] > 0 {
                return false;
            }
        }
        true
    }

    /// Whether nobody is inside a level.
    fn is_level_free(&self, level: u8) -> bool
        requires { IsLevel level }
        ensures { IsTrue result ↔ NobodyHolds (limits_of self.now) (state_of self.now) (Level level) }
    {
        for held in &self.accesses {
            if held.levels[level as usize] {
                return false;
            }
        }
        true
    }

    /// Whether nobody holds an access at any mount.
    fn is_every_mount_free(&self) -> bool
        ensures { IsTrue result ↔
            ((m : ℕ) → m < (limits_of self.now).mounts → NobodyHolds (limits_of self.now) (state_of self.now) (Mount m)) }
    {
        for mount in 0..self.mounts {
            if !self.is_mount_free(mount) {
                return false;
            }
        }
        true
    }

    /// Whether no node is dirty.
    fn is_clean(&self) -> bool
        ensures { IsTrue result ↔ IsClean (limits_of self.now) (state_of self.now) }
    {
        for node in &self.nodes {
            if matches!(node, Some(info) if info.dirty) {
                return false;
            }
        }
        true
    }

    /// Whether no file is removed.
    fn is_none_removed(&self) -> bool
        ensures { IsTrue result ↔ NoneRemoved (limits_of self.now) (state_of self.now) }
    {
        for node in &self.nodes {
            if matches!(node, Some(info) if info.removed) {
                return false;
            }
        }
        true
    }

    /// Whether a file is removed.
    fn is_removed(&self, node: u8) -> bool
        requires { node < (limits_of self.now).nodes }
        ensures { result ≡ is_removed ((state_of self.now).tree node) }
    {
        matches!(self.tree(node), Some(info) if info.removed)
    }

    /// Whether there is a node of this number, and a task has it open.
    fn has_file(&self, task: u8, node: u8) -> bool
        requires { task < (limits_of self.now).tasks }
        ensures { IsTrue result ↔ ((node < (limits_of self.now).nodes) × ((state_of self.now).opens task node ≡ true)) }
    {
        (node as usize) < self.nodes.len() && self.accesses[task as usize].files[node as usize]
    }

    /// How many tasks have a file open.
    fn openers(&self, node: u8) -> u64
        requires { node < (limits_of self.now).nodes }
        ensures { result ≡ openers (state_of self.now).opens node }
    {
        let mut openers: u64 = 0;
        for held in &self.accesses {
            openers += u64::from(held.files[node as usize]);
        }
        openers
    }

    /// Whether a task that has a file open may close it: where it was removed and nobody else has it open, inside level 3 alone.
    fn may_close(&self, task: u8, node: u8) -> bool
        requires task { task < (limits_of self.now).tasks }
        requires node { node < (limits_of self.now).nodes }
        ensures { IsTrue result ↔ (is_removed ((state_of self.now).tree node) ≡ true →
            openers (state_of self.now).opens node ≡ 1 → (state_of self.now).levels task 3 ≡ true) }
    {
        !self.is_removed(node) || self.openers(node) != 1 || self.accesses[task as usize].levels[3]
    }

    /// The blocks of all files.
    fn used_blocks(&self) -> u64
        ensures sum { result ≡ used_blocks (limits_of self.now) (state_of self.now) }
        ensures small { result < 2 ^ 40 }
    {
        let mut used: u64 = 0;
        for node in &self.nodes {
            used += node.map_or(0, |info| u64::from(info.size));
        }
        used
    }

    /// Whether a task is in no level from this one on.
    fn is_below(&self, task: u8, level: u8) -> bool
        requires task { task < (limits_of self.now).tasks }
        requires level { IsLevel level }
        ensures { IsTrue result ↔ ((j : ℕ) → level ≤ j → j ≤ 3 → (state_of self.now).levels task j ≡ false) }
    {
        let inside = self.accesses[task as usize].levels;
        for later in level..4 {
            if inside[later as usize] {
                return false;
            }
        }
        true
    }

    /// Whether a task may get an access at a gate now.
    fn may_grant(&self, task: u8, gate: Gate) -> bool
        requires { task < (limits_of self.now).tasks }
        ensures { IsTrue result ↔ MayDo (limits_of self.now) (state_of self.now) task (Grant gate) }
    {
        match gate {
            Gate::Mount(mount) => {
                mount < self.mounts
                    && !self.mount_ro[mount as usize]
                    && !self.sb_ro
                    && self.accesses[task as usize].mounts[mount as usize] < MAX_ACCESSES
            }
            // Levels are taken in rising order, so the task may be in none from this one on.
            Gate::Level(level) => {
                is_level(level) && self.passed < level && self.is_below(task, level)
            }
        }
    }

    /// Whether a task holds an access at a gate.
    fn has_access(&self, task: u8, gate: Gate) -> bool
        requires { task < (limits_of self.now).tasks }
        ensures { IsTrue result ↔ MayDo (limits_of self.now) (state_of self.now) task (Return gate) }
    {
        match gate {
            Gate::Mount(mount) => {
                mount < self.mounts && self.accesses[task as usize].mounts[mount as usize] > 0
            }
            Gate::Level(level) => {
                is_level(level) && self.accesses[task as usize].levels[level as usize]
            }
        }
    }

    /// Whether the freeze may go to a stage.
    fn may_stage(&self, stage: u8) -> bool
        ensures { IsTrue result ↔ MayStage (limits_of self.now) (state_of self.now) stage }
    {
        match stage {
            0 => {
                self.is_at(2)
                    || self.is_at(3)
                    || (self.stage == 4 && self.holders.is_none())
                    || self.is_closing()
            }
            1 => self.is_at(0) && !self.sb_ro,
            2 => self.is_at(1),
            3 => self.is_at(2) && self.is_clean(),
            // A read-only superblock is frozen at once.
            4 => self.is_clean() && (self.is_at(3) || (self.is_at(0) && self.sb_ro)),
            _ => false,
        }
    }

    /// Whether the freeze is at a stage whose level it has closed.
    fn is_at(&self, stage: u8) -> bool
        ensures { IsTrue result ↔ (((state_of self.now).stage ≡ stage) × ((state_of self.now).passed ≡ stage)) }
    {
        stage == self.stage && stage == self.passed
    }

    /// Whether the freeze is at a stage whose level it has not passed.
    fn is_closing(&self) -> bool
        ensures { IsTrue result ↔ (IsLevel (state_of self.now).stage × ((state_of self.now).passed + 1 ≡ (state_of self.now).stage)) }
    {
        is_level(self.stage) && self.passed == self.stage - 1
    }

    /// Whether a freeze may have closed a level now.
    fn may_pass(&self, level: u8) -> bool
        ensures { IsTrue result ↔
            (IsLevel level × ((state_of self.now).stage ≡ level) × ((state_of self.now).passed + 1 ≡ level) ×
            NobodyHolds (limits_of self.now) (state_of self.now) (Level level)) }
    {
        is_level(level)
            && self.stage == level
            && self.passed == level - 1
            && self.is_level_free(level)
    }

    /// Whether a task may change the tree.
    fn is_writer(&self, task: u8) -> bool
        requires { task < (limits_of self.now).tasks }
        ensures { IsTrue result ↔ IsWriter (limits_of self.now) (state_of self.now) task }
    {
        self.accesses[task as usize].levels[1] && self.holds_some_mount(task)
    }

    /// Whether a task may make a file dirty by a page fault.
    fn may_dirty(&self, task: u8) -> bool
        requires { task < (limits_of self.now).tasks }
        ensures { IsTrue result ↔
            (((state_of self.now).levels task 2 ≡ true) × HoldsSomeMount (limits_of self.now) (state_of self.now) task) }
    {
        self.accesses[task as usize].levels[2] && self.holds_some_mount(task)
    }

    /// Whether a task may write a file back: inside level 3, or where nobody else can make it dirty.
    fn may_clean(&self, task: u8) -> bool
        requires { task < (limits_of self.now).tasks }
        ensures { IsTrue result ↔
            (((state_of self.now).levels task 3 ≡ true) ⊎ (((state_of self.now).passed ≡ 2) ⊎ ((state_of self.now).sb_ro ≡ true))) }
    {
        self.accesses[task as usize].levels[3] || self.passed == 2 || self.sb_ro
    }

    /// Whether there is a node of this number, and it is free.
    fn is_free(&self, node: u8) -> bool
        ensures { IsTrue result ↔ ((node < (limits_of self.now).nodes) × ((state_of self.now).tree node ≡ None)) }
    {
        (node as usize) < self.nodes.len() && self.nodes[node as usize].is_none()
    }

    /// Whether a node is a file.
    fn is_file(&self, node: u8) -> bool
        ensures { IsTrue result ↔ ((node < (limits_of self.now).nodes) × IsFile ((state_of self.now).tree node)) }
    {
        self.tree(node).is_some_and(|info| info.kind == Kind::File)
    }

    /// Whether a node is a file that wasn't removed.
    fn is_linked(&self, node: u8) -> bool
        ensures { IsTrue result ↔ ((node < (limits_of self.now).nodes) × IsLinkedFile ((state_of self.now).tree node)) }
    {
        self.tree(node)
            .is_some_and(|info| info.kind == Kind::File && !info.removed)
    }

    /// Whether a node is a directory.
    fn is_directory(&self, node: u8) -> bool
        ensures { IsTrue result ↔ ((node < (limits_of self.now).nodes) × IsDirectory ((state_of self.now).tree node)) }
    {
        self.tree(node).is_some_and(|info| info.kind == Kind::Dir)
    }

    /// Whether a file may grow by this many blocks.
    fn has_room(&self, blocks: u32) -> bool
        ensures { IsTrue result ↔
            ((0 < blocks) × (used_blocks (limits_of self.now) (state_of self.now) + blocks ≤ (limits_of self.now).capacity)) }
    {
        0 < blocks && self.used_blocks() + u64::from(blocks) <= u64::from(self.capacity)
    }
}

/// Whether a model may have these numbers of tasks, mounts and nodes.
fn are_limits(tasks: u8, mounts: u8, nodes: u8) -> bool
    ensures { IsTrue result ↔ AreLimits tasks mounts nodes }
{
    1 <= tasks && tasks <= 64 && 1 <= mounts && mounts <= 8 && 2 <= nodes && nodes <= 64
}

/// Whether a freeze level has this number.
fn is_level(level: u8) -> bool
    ensures { IsTrue result ↔ IsLevel level }
{
    1 <= level && level <= 3
}
