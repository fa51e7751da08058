//! Steps as records of numbers.

ghost use Rattle.std.specs.Prelude.{◌≡◌, Some};
ghost use Rattle.access_model.specs.declared.actions.Kind.TheVariants.{Dir, File};
ghost use Rattle.mntgate_c.specs.Events.{action_at, event_at, step_at, touch_at, word_at};

use crate::codes::{Outcome, tell};
use vfs_gates::{Action, Event, Gate, Holder, Kind, Step, Touch, WordName};

/// A word of the gates: its kind, the mount, level, task or node that it is of, and the processor of a count.
#[repr(C)]
#[derive(Clone, Copy)]
pub struct WordRecord {
    pub kind: u8,
    pub first: u8,
    pub second: u8,
}

/// One atomic step on one word; all is 0 where there was none.
#[repr(C)]
#[derive(Clone, Copy)]
pub struct EventRecord {
    /// Whether there was one.
    pub there: bool,
    /// 0 load, 1 store, 2 add, 3 sub, 4 or, 5 and, 6 swap, 7 compare and exchange.
    pub touch: u8,
    pub word: WordRecord,
    /// What is stored, added, subtracted, or'd, and'd or put.
    pub operand: u64,
    /// What a compare and exchange looks for.
    pub expect: u64,
    pub found: u64,
    pub left: u64,
}

/// The action that a step added to the history; kind 0 where it added none.
#[repr(C)]
#[derive(Clone, Copy)]
pub struct ActionRecord {
    pub kind: u8,
    /// The mount, level, stage or node.
    pub number: u8,
    /// The directory.
    pub dir: u8,
    pub blocks: u32,
}

/// One step of an operation.
#[repr(C)]
#[derive(Drop)]
pub struct StepRecord {
    pub outcome: Outcome,
    pub event: EventRecord,
    pub action: ActionRecord,
}

/// A word, for C.
fn word(name: WordName) -> WordRecord
    ensures { word_at result ≡ name }
{
    let (kind, first, second) = match name {
        WordName::Umount => (0, 0, 0),
        WordName::Stage => (1, 0, 0),
        WordName::Holders => (2, 0, 0),
        WordName::SbFlags => (3, 0, 0),
        WordName::Remount => (4, 0, 0),
        WordName::Removed => (5, 0, 0),
        WordName::MountFlags(mount) => (6, mount, 0),
        WordName::MountCount(mount, cpu) => (7, mount, cpu),
        WordName::Block(level) => (8, level, 0),
        WordName::Sync(level) => (9, level, 0),
        WordName::LevelCount(level, cpu) => (10, level, cpu),
        WordName::Section(task) => (11, task, 0),
        WordName::Used => (12, 0, 0),
        WordName::Node(node) => (13, node, 0),
        WordName::Kids(node) => (14, node, 0),
    };
    WordRecord {
        kind,
        first,
        second,
    }
}

/// What an event does to its word, for C: the number of the touch, its operand, and what it expects.
fn touch(touch: Touch) -> (u8, u64, u64)
    ensures { touch_at result.0 result.1 result.2 ≡ touch }
{
    match touch {
        Touch::Load => (0, 0, 0),
        Touch::Store(value) => (1, value, 0),
        Touch::Add(by) => (2, by, 0),
        Touch::Sub(by) => (3, by, 0),
        Touch::Or(bits) => (4, bits, 0),
        Touch::And(bits) => (5, bits, 0),
        Touch::Swap(value) => (6, value, 0),
        Touch::Cas { expect, put } => (7, put, expect),
    }
}

/// No event.
fn no_event() -> EventRecord
    ensures { event_at result ≡ None }
{
    EventRecord {
        there: false,
        touch: 0,
        word: WordRecord {
            kind: 0,
            first: 0,
            second: 0,
        },
        operand: 0,
        expect: 0,
        found: 0,
        left: 0,
    }
}

/// An event, for C.
fn event(event: Event) -> EventRecord
    ensures { event_at result ≡ Some event }
{
    let (kind, operand, expect) = touch(event.touch);
    EventRecord {
        there: true,
        touch: kind,
        word: word(event.word),
        operand,
        expect,
        found: event.found,
        left: event.left,
    }
}

/// An action by its kind and the number that it is of.
fn numbered(kind: u8, number: u8) -> ActionRecord
    ensures { (result.kind ≡ kind) × (result.number ≡ number) }
{
    ActionRecord {
        kind,
        number,
        dir: 0,
        blocks: 0,
    }
}

/// The number of the creation of a node of this kind.
fn creation(kind: Kind) -> u8
    ensures file { kind ≡ File → result ≡ 16 }
    ensures dir { kind ≡ Dir → result ≡ 17 }
{
    match kind {
        Kind::File => 16,
        Kind::Dir => 17,
    }
}

/// An action, for C.
fn action(action: Action) -> ActionRecord
    ensures { action_at result ≡ Some action }
{
    match action {
        Action::Grant(Gate::Mount(mount)) => numbered(1, mount),
        Action::Grant(Gate::Level(level)) => numbered(2, level),
        Action::Return(Gate::Mount(mount)) => numbered(3, mount),
        Action::Return(Gate::Level(level)) => numbered(4, level),
        Action::MountRo(mount) => numbered(5, mount),
        Action::MountRw(mount) => numbered(6, mount),
        Action::SbRo => numbered(7, 0),
        Action::SbRw => numbered(8, 0),
        Action::Stage(stage) => numbered(9, stage),
        Action::Hold(Holder::Kernel) => numbered(10, 0),
        Action::Hold(Holder::User) => numbered(11, 0),
        Action::Leave(Holder::Kernel) => numbered(12, 0),
        Action::Leave(Holder::User) => numbered(13, 0),
        Action::Pass(level) => numbered(14, level),
        Action::Reopen(level) => numbered(15, level),
        Action::Create { node, dir, kind } => ActionRecord {
            dir,
            ..numbered(creation(kind), node)
        },
        Action::Remove(node) => numbered(18, node),
        Action::Grow { node, blocks } => ActionRecord {
            blocks,
            ..numbered(19, node)
        },
        Action::MoveTo { node, dir } => ActionRecord {
            dir,
            ..numbered(20, node)
        },
        Action::Dirty(node) => numbered(21, node),
        Action::Clean(node) => numbered(22, node),
        Action::Open(node) => numbered(23, node),
        Action::Close(node) => numbered(24, node),
    }
}

/// Returns the record of a step.
pub fn record(step: Step) -> StepRecord
    ensures { step_at result ≡ step }
{
    StepRecord {
        outcome: tell(step.progress),
        event: match step.event {
            None => no_event(),
            Some(there) => event(there),
        },
        action: match step.action {
            None => numbered(0, 0),
            Some(there) => action(there),
        },
    }
}
