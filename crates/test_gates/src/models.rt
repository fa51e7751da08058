//! The model by its calls, and the printed names and numbers of refusals.

use access_model::{Action, Gate, GateError, Holder, Holders, Kind, NodeInfo};
use model_state::Model;
use std::process::Abort;
use std::test::Fail;

/// An action of a task, and whether the model does it.
type ActionCase = (u8, Action, bool);

/// A file in the root.
const FILE: Action = Action::Create {
    node: 1,
    dir: 0,
    kind: Kind::File,
};

/// That the model does each action, or refuses it and says so beforehand.
fn does<R: Abort>(rt: &R, model: &mut Model, rows: &[ActionCase]) {
    for (number, (task, action, is_done)) in rows.iter().enumerate() {
        let is_allowed = model.allows(*task, action);
        let is_refused = model.apply(*task, action) == Err(GateError::Invalid);
        assert!(rt;
            is_allowed == *is_done && is_refused != *is_done,
            "{number}"
        );
    }
}

/// A writer inside level 1 fills a file, and no more, and the other task opens it.
static FILLS: [ActionCase; 9] = [
    (0, Action::Open(1), false),
    (0, Action::Grant(Gate::Level(1)), true),
    (0, Action::Grant(Gate::Mount(0)), true),
    (0, FILE, true),
    (0, Action::Grow { node: 1, blocks: 8 }, true),
    (0, Action::Grow { node: 1, blocks: 1 }, false),
    (0, Action::Open(0), false),
    (1, Action::Open(1), true),
    (1, Action::Open(1), false),
];

/// A freeze waits for the writer at level 1 and for its file, and is held by both holders until one leaves.
static FREEZES: [ActionCase; 14] = [
    (1, Action::Stage(1), true),
    (1, Action::Pass(1), false),
    (0, Action::Return(Gate::Level(1)), true),
    (1, Action::Pass(1), true),
    (1, Action::Stage(2), true),
    (1, Action::Pass(2), true),
    (1, Action::Stage(3), false),
    (1, Action::Clean(1), true),
    (1, Action::Stage(3), true),
    (1, Action::Pass(3), true),
    (1, Action::Stage(4), true),
    (1, Action::Hold(Holder::Kernel), true),
    (1, Action::Hold(Holder::User), true),
    (1, Action::Leave(Holder::Kernel), true),
];

/// It is thawed once neither holds one. The file is removed, and freed at its last close, inside level 3 alone; only then the superblock is made
/// read-only. A mount is once its writer has left, and then grants nothing.
static THAWS: [ActionCase; 18] = [
    (1, Action::Stage(0), false),
    (1, Action::Leave(Holder::User), true),
    (1, Action::Stage(0), true),
    (1, Action::Reopen(3), true),
    (1, Action::Reopen(2), true),
    (1, Action::Reopen(1), true),
    (0, Action::Grant(Gate::Level(1)), true),
    (0, Action::Remove(1), true),
    (0, Action::Return(Gate::Level(1)), true),
    (1, Action::MountRo(0), false),
    (0, Action::Return(Gate::Mount(0)), true),
    (1, Action::MountRo(0), true),
    (0, Action::Grant(Gate::Mount(0)), false),
    (0, Action::SbRo, false),
    (1, Action::Close(1), false),
    (1, Action::Grant(Gate::Level(3)), true),
    (1, Action::Close(1), true),
    (0, Action::SbRo, true),
];

/// One task at one mount. The mount is made read-only once its writer has left, and grants nothing then.
static SHUTS: [ActionCase; 5] = [
    (0, Action::Grant(Gate::Mount(0)), true),
    (0, Action::MountRo(0), false),
    (0, Action::Return(Gate::Mount(0)), true),
    (0, Action::MountRo(0), true),
    (0, Action::Grant(Gate::Mount(0)), false),
];

/// The file once it is full and written back.
const CLEAN: NodeInfo = NodeInfo {
    kind: Kind::File,
    parent: 0,
    size: 8,
    dirty: false,
    removed: false,
};

/// Whether the model says what is frozen behind `FREEZES`, and who has what.
fn is_frozen(model: &Model) -> bool {
    let holders = [model.holds(Holder::Kernel), model.holds(Holder::User)];
    let open = [model.has_open(0, 1), model.has_open(1, 1)];
    let held = (model.held_mount(0, 0), model.held_level(0, 1));
    let frozen = (model.stage(), model.passed(), model.tree(1));
    (holders, open, held, frozen)
        == (
            [false, true],
            [false, true],
            (1, false),
            (4, 3, Some(CLEAN)),
        )
}

/// Whether it says what is read-only behind `THAWS`, and who has what.
fn is_read_only(model: &Model) -> bool {
    let read_only = [model.mount_ro(0), model.sb_ro()];
    (read_only, model.held_level(1, 3), model.tree(1)) == ([true, true], true, None)
}

#[test]
fn a_model_does_what_is_allowed(rt: HostRuntime) -> Result<(), Fail> {
    let mut model = Model::new(rt.alloc(), 2, 1, 2, 8)?;
    let mut alone = Model::new(rt.alloc(), 1, 1, 2, 8)?;
    does(&rt, &mut model, FILLS.as_slice());
    does(&rt, &mut model, FREEZES.as_slice());
    let was_frozen = is_frozen(&model);
    does(&rt, &mut model, THAWS.as_slice());
    does(&rt, &mut alone, SHUTS.as_slice());
    passed(was_frozen && is_read_only(&model))
}

#[test]
fn a_freeze_has_holders(_rt: HostRuntime) -> Result<(), Fail> {
    let held = Holders::none().with(Holder::User);
    passed(
        !held.has(Holder::Kernel) && held.has(Holder::User) && held.without(Holder::User).is_none(),
    )
}

/// Refusals, with their names and the numbers of `errno`.
static REFUSALS: [(GateError, &str, u16); 12] = [
    (GateError::NoEntry, "NoEntry", 2),
    (GateError::Again, "Again", 11),
    (GateError::NoMemory, "NoMemory", 12),
    (GateError::Busy, "Busy", 16),
    (GateError::NotDir, "NotDir", 20),
    (GateError::IsDir, "IsDir", 21),
    (GateError::Invalid, "Invalid", 22),
    (GateError::TooMany, "TooMany", 24),
    (GateError::NoSpace, "NoSpace", 28),
    (GateError::ReadOnly, "ReadOnly", 30),
    (GateError::Order, "Order", 35),
    (GateError::Hook(7), "Hook", 7),
];

#[test]
fn refusals_have_the_numbers_of_errno(_rt: HostRuntime) -> Result<(), Fail> {
    for (error, name, number) in REFUSALS.iter() {
        if error.number() != *number || error.name() != *name {
            return Err(Fail::new(*name));
        }
    }
    Ok(())
}

/// What a test answers where all was so, or something otherwise.
pub fn passed(is_so: bool) -> Result<(), Fail> {
    if is_so {
        Ok(())
    } else {
        Err(Fail::new("something is otherwise"))
    }
}
