//! Why a call can't begin.

use crate::terms::{Term, call_term};
use access_model::GateError;
use cpu_words::WordName;
use gate_transitions::Driver;
use gate_world::Op;
use schedule_lines::Output;
use transcripts::Session;

/// How many accesses a task may hold at one mount.
const MAX_ACCESSES: u16 = 1024;

/// What a call names by a number.
#[derive(Clone, Copy)]
pub(crate) enum Numbered {
    Mount,
    Processor,
    Level,
    Node,
}

/// Why a task can't begin a call.
#[derive(Clone, Copy)]
pub(crate) enum Reason {
    /// This call of the task is under way.
    UnderWay(Op),
    /// There is no mount, processor, level or node of this number.
    NoSuch(Numbered, u8),
    /// A growth by no block.
    NoBlocks,
    /// The task is inside this level.
    Holds(u8),
    /// The task isn't inside this level.
    LacksLevel(u8),
    /// The task has no access at this mount.
    LacksMount(u8),
    /// The task has no access at any mount.
    LacksMounts,
    /// The task doesn't have this node open.
    NotOpen(u8),
    /// The task has all accesses at this mount that it may have.
    Full(u8),
    /// The task has this node open.
    IsOpen(u8),
}

/// What a refused beginning is judged by: the gates, the task, and the call of the task that is under way.
#[derive(Drop)]
pub(crate) struct Asker<'a, D> {
    pub(crate) session: &'a Session<D>,
    pub(crate) task: u8,
    pub(crate) under_way: Option<Op>,
}

impl<'a, D: Driver> Asker<'a, D> {
    /// Why the task can't begin a call, by how that is refused. None where nothing is found, as when memory was refused.
    pub(crate) fn reason(&self, op: Op, refusal: GateError) -> Option<Reason> {
        match refusal {
            GateError::Invalid => self.out_of_range(op),
            GateError::TooMany => too_many(op),
            GateError::Order => match self.under_way {
                Some(call) => Some(Reason::UnderWay(call)),
                None => self.out_of_order(op),
            },
            _ => None,
        }
    }

    /// The first number of a call that is out of range.
    fn out_of_range(&self, op: Op) -> Option<Reason> {
        match op {
            Op::Want { mount, cpu, .. }
            | Op::DropMount { mount, cpu }
            | Op::WantWrite { mount, cpu }
            | Op::DropWrite { mount, cpu } => self.no_mount(mount).or(self.no_cpu(cpu)),
            Op::ChangeMount { mount, .. } => self.no_mount(mount),
            Op::Start { level, cpu, .. } | Op::End { level, cpu } => {
                self.no_level(level).or(self.no_cpu(cpu))
            }
            Op::Callback { level } => self.no_level(level),
            Op::Grow { file, .. } => self.no_node(file).or(Some(Reason::NoBlocks)),
            Op::MoveTo { file, dir } => self.no_node(file).or(self.no_node(dir)),
            Op::Close { file, cpu, .. } => self.no_node(file).or(self.no_cpu(cpu)),
            Op::Create { dir: node, .. }
            | Op::Remove { file: node }
            | Op::Fault { file: node }
            | Op::Flush { file: node }
            | Op::Open { file: node } => self.no_node(node),
            _ => None,
        }
    }

    fn no_mount(&self, mount: u8) -> Option<Reason> {
        self.unless_word(Numbered::Mount, mount, WordName::MountFlags(mount))
    }

    fn no_cpu(&self, cpu: u8) -> Option<Reason> {
        self.unless_word(Numbered::Processor, cpu, WordName::LevelCount(1, cpu))
    }

    fn no_level(&self, level: u8) -> Option<Reason> {
        self.unless_word(Numbered::Level, level, WordName::Block(level))
    }

    fn no_node(&self, node: u8) -> Option<Reason> {
        self.unless_word(Numbered::Node, node, WordName::Node(node))
    }

    /// That there is no such thing, unless the gates have its word.
    fn unless_word(&self, what: Numbered, number: u8, word: WordName) -> Option<Reason> {
        match self.session.word(word) {
            Some(_) => None,
            None => Some(Reason::NoSuch(what, number)),
        }
    }

    /// What the task holds and may not, or doesn't hold and has to.
    fn out_of_order(&self, op: Op) -> Option<Reason> {
        match op {
            Op::DropMount { mount, .. } => self.lacks_mount(mount),
            Op::ChangeMount { .. }
            | Op::RemountSb { .. }
            | Op::WantWrite { .. }
            | Op::Freeze { .. }
            | Op::Thaw { .. }
            | Op::Snapshot { .. } => self.holds_from(1),
            Op::Start { level, .. } => self.holds_from(level),
            Op::End { level, .. } => self.lacks_level(level),
            Op::DropWrite { mount, .. } => self.lacks_level(1).or(self.lacks_mount(mount)),
            Op::Create { .. } | Op::Remove { .. } | Op::Grow { .. } | Op::MoveTo { .. } => {
                self.lacks_level(1).or(self.lacks_mounts())
            }
            Op::Fault { .. } => self.lacks_level(2).or(self.lacks_mounts()),
            Op::Flush { .. } => self.lacks_level(3),
            Op::Close { file, .. } => self.holds_from(3).or(Some(Reason::NotOpen(file))),
            _ => None,
        }
    }

    /// The first level from this one on that the task is inside.
    fn holds_from(&self, least: u8) -> Option<Reason> {
        for level in 1..=3u8 {
            if level >= least && self.session.model().held_level(self.task, level) {
                return Some(Reason::Holds(level));
            }
        }
        None
    }

    fn lacks_level(&self, level: u8) -> Option<Reason> {
        if self.session.model().held_level(self.task, level) {
            None
        } else {
            Some(Reason::LacksLevel(level))
        }
    }

    fn lacks_mount(&self, mount: u8) -> Option<Reason> {
        if self.session.model().held_mount(self.task, mount) > 0 {
            None
        } else {
            Some(Reason::LacksMount(mount))
        }
    }

    fn lacks_mounts(&self) -> Option<Reason> {
        for mount in 0..8u8 {
            if self.session.model().held_mount(self.task, mount) > 0 {
                return None;
            }
        }
        Some(Reason::LacksMounts)
    }
}

/// Of what the task would have more than it may.
fn too_many(op: Op) -> Option<Reason> {
    match op {
        Op::Want { mount, .. } | Op::WantWrite { mount, .. } => Some(Reason::Full(mount)),
        Op::Open { file } => Some(Reason::IsOpen(file)),
        _ => None,
    }
}

impl Numbered {
    /// Its name.
    fn name(self) -> &'static str {
        match self {
            Numbered::Mount => "mount",
            Numbered::Processor => "cpu",
            Numbered::Level => "level",
            Numbered::Node => "node",
        }
    }
}

impl Reason {
    /// Prints it, as `holds level 1`.
    pub(crate) fn print(self, out: &mut Output) {
        match self {
            Reason::UnderWay(op) => {
                call_term(op).print(out);
                out.text(b" is under way");
            }
            Reason::NoSuch(what, number) => {
                out.text(b"there is no ");
                out.text(what.name().as_bytes());
                out.numbered(b" ", u64::from(number));
            }
            Reason::NoBlocks => out.text(b"no block is asked for"),
            Reason::Holds(level) => out.numbered(b"holds level ", u64::from(level)),
            Reason::LacksLevel(level) => out.numbered(b"doesn't hold level ", u64::from(level)),
            Reason::LacksMount(mount) => {
                out.numbered(b"holds no access at mount ", u64::from(mount));
            }
            Reason::LacksMounts => out.text(b"holds no access at any mount"),
            Reason::NotOpen(node) => out.numbered(b"hasn't opened node ", u64::from(node)),
            Reason::Full(mount) => {
                out.numbered(b"holds ", u64::from(MAX_ACCESSES));
                out.numbered(b" accesses at mount ", u64::from(mount));
            }
            Reason::IsOpen(node) => out.numbered(b"has opened node ", u64::from(node)),
        }
    }

    /// Returns the reason as a term with named values.
    pub(crate) fn term(self) -> Term {
        match self {
            Reason::UnderWay(op) => Term::new("under way").word("call", call_term(op).name),
            Reason::NoSuch(what, number) => Term::new("no such number")
                .word("of", what.name())
                .index("number", number),
            Reason::NoBlocks => Term::new("no blocks"),
            Reason::Holds(level) => Term::new("holds level").index("level", level),
            Reason::LacksLevel(level) => Term::new("lacks level").index("level", level),
            Reason::LacksMount(mount) => Term::new("lacks access").index("mount", mount),
            Reason::LacksMounts => Term::new("lacks access"),
            Reason::NotOpen(node) => Term::new("not open").index("node", node),
            Reason::Full(mount) => Term::new("too many accesses").index("mount", mount),
            Reason::IsOpen(node) => Term::new("already open").index("node", node),
        }
    }
}
