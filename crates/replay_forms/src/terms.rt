//! Calls, actions and answers as a name with named values, from which lines and records are printed alike.

use access_model::{Action, Gate, GateError, Holder, Kind, Reply};
use gate_world::Op;
use schedule_lines::Output;
use schedule_text::Verb;

/// How many values a term has at most.
const FIELDS: usize = 3;

/// A value of a term.
#[derive(Clone, Copy)]
pub(crate) enum FieldValue {
    Number(u64),
    Word(&'static str),
    Flag(bool),
}

/// A named value of a term.
#[derive(Clone, Copy)]
pub(crate) struct Field {
    pub(crate) name: &'static str,
    pub(crate) value: FieldValue,
}

/// A name with some named values, as `change` with `mount` 0 and `to` `ro`.
#[derive(Clone, Copy)]
pub(crate) struct Term {
    pub(crate) name: &'static str,
    pub(crate) fields: [Option<Field>; FIELDS],
}

impl Term {
    /// A name alone.
    pub(crate) fn new(name: &'static str) -> Term {
        Term {
            name,
            fields: [None; FIELDS],
        }
    }

    /// Returns the term with a value more.
    fn with(mut self, name: &'static str, value: FieldValue) -> Term {
        for place in self.fields.iter_mut() {
            if place.is_none() {
                *place = Some(Field { name, value });
                break;
            }
        }
        self
    }

    /// Returns the term with a number more.
    pub(crate) fn number(self, name: &'static str, number: u64) -> Term {
        self.with(name, FieldValue::Number(number))
    }

    /// Returns the term with the number of a mount, a processor, a level, a node or a task more.
    pub(crate) fn index(self, name: &'static str, index: u8) -> Term {
        self.number(name, u64::from(index))
    }

    /// Returns the term with a word more.
    pub(crate) fn word(self, name: &'static str, word: &'static str) -> Term {
        self.with(name, FieldValue::Word(word))
    }

    /// Returns the term with a yes or no more.
    fn flag(self, name: &'static str, flag: bool) -> Term {
        self.with(name, FieldValue::Flag(flag))
    }

    /// Prints the name and behind it each value, as a line of a schedule has them.
    pub(crate) fn print(&self, out: &mut Output) {
        out.text(self.name.as_bytes());
        for field in self.fields.iter().flatten() {
            match field.value {
                FieldValue::Number(number) => out.numbered(b" ", number),
                FieldValue::Word(word) => {
                    out.text(b" ");
                    out.text(word.as_bytes());
                }
                FieldValue::Flag(_) => {}
            }
        }
    }
}

/// What a change or a remount makes of its gate.
fn access_word(read_only: bool) -> &'static str {
    if read_only { "ro" } else { "rw" }
}

/// The word of a schedule for a holder.
pub(crate) fn holder_word(holder: Holder) -> &'static str {
    match holder {
        Holder::Kernel => "kernel",
        Holder::User => "user",
    }
}

/// The word of a schedule for a kind of node.
pub(crate) fn kind_word(kind: Kind) -> &'static str {
    match kind {
        Kind::File => "file",
        Kind::Dir => "dir",
    }
}

/// A command on a task, by its name.
fn command(verb: Verb) -> Term {
    Term::new(verb.name())
}

/// One of two commands: the form that waits, or its try form.
fn command_of(wait: bool, waits: Verb, tries: Verb) -> Term {
    command(if wait { waits } else { tries })
}

/// A call, as the line of a schedule that begins it.
pub(crate) fn call_term(op: Op) -> Term {
    match op {
        Op::Want { mount, cpu, wait } => {
            at_mount(command_of(wait, Verb::Want, Verb::TryWant), mount, cpu)
        }
        Op::DropMount { mount, cpu } => at_mount(command(Verb::Drop), mount, cpu),
        Op::WantWrite { mount, cpu } => at_mount(command(Verb::WantWrite), mount, cpu),
        Op::DropWrite { mount, cpu } => at_mount(command(Verb::DropWrite), mount, cpu),
        Op::ChangeMount {
            mount,
            read_only,
            wait,
        } => command_of(wait, Verb::Change, Verb::TryChange)
            .index("mount", mount)
            .word("to", access_word(read_only)),
        Op::RemountSb { read_only } => command(Verb::Remount).word("to", access_word(read_only)),
        Op::Start { level, cpu, wait } => {
            at_level(command_of(wait, Verb::Start, Verb::TryStart), level, cpu)
        }
        Op::End { level, cpu } => at_level(command(Verb::End), level, cpu),
        Op::Callback { level } => command(Verb::Callback).index("level", level),
        Op::Freeze { holder } => command(Verb::Freeze).word("holder", holder_word(holder)),
        Op::Thaw { holder } => command(Verb::Thaw).word("holder", holder_word(holder)),
        _ => tree_call_term(op),
    }
}

/// A call at the tree.
fn tree_call_term(op: Op) -> Term {
    match op {
        Op::Create { dir, kind } => command(Verb::Create)
            .index("directory", dir)
            .word("kind", kind_word(kind)),
        Op::Remove { file } => command(Verb::Remove).index("node", file),
        Op::Grow { file, blocks } => command(Verb::Grow)
            .index("node", file)
            .number("blocks", u64::from(blocks)),
        Op::MoveTo { file, dir } => command(Verb::Move)
            .index("node", file)
            .index("directory", dir),
        Op::Fault { file } => command(Verb::Fault).index("node", file),
        Op::Flush { file } => command(Verb::Flush).index("node", file),
        Op::Open { file } => command(Verb::Open).index("node", file),
        Op::Close { file, cpu, wait } => command_of(wait, Verb::Close, Verb::TryClose)
            .index("node", file)
            .index("cpu", cpu),
        Op::Snapshot { wait } => command_of(wait, Verb::Snapshot, Verb::TrySnapshot),
        _ => Term::new(""),
    }
}

fn at_mount(term: Term, mount: u8, cpu: u8) -> Term {
    term.index("mount", mount).index("cpu", cpu)
}

fn at_level(term: Term, level: u8, cpu: u8) -> Term {
    term.index("level", level).index("cpu", cpu)
}

/// An action of the model.
pub(crate) fn action_term(action: Action) -> Term {
    match action {
        Action::Grant(gate) => at_gate("grant", gate),
        Action::Return(gate) => at_gate("return", gate),
        Action::MountRo(mount) => Term::new("ro").index("mount", mount),
        Action::MountRw(mount) => Term::new("rw").index("mount", mount),
        Action::SbRo => Term::new("ro").word("of", "sb"),
        Action::SbRw => Term::new("rw").word("of", "sb"),
        Action::Stage(stage) => Term::new("stage").index("stage", stage),
        Action::Hold(holder) => Term::new("hold").word("holder", holder_word(holder)),
        Action::Leave(holder) => Term::new("leave").word("holder", holder_word(holder)),
        Action::Pass(level) => Term::new("pass").index("level", level),
        Action::Reopen(level) => Term::new("reopen").index("level", level),
        Action::Create { node, dir, kind } => Term::new("create")
            .index("node", node)
            .index("directory", dir)
            .word("kind", kind_word(kind)),
        Action::Remove(node) => Term::new("remove").index("node", node),
        Action::Grow { node, blocks } => Term::new("grow")
            .index("node", node)
            .number("blocks", u64::from(blocks)),
        Action::MoveTo { node, dir } => Term::new("move")
            .index("node", node)
            .index("directory", dir),
        Action::Dirty(node) => Term::new("dirty").index("node", node),
        Action::Clean(node) => Term::new("clean").index("node", node),
        Action::Open(node) => Term::new("open").index("node", node),
        Action::Close(node) => Term::new("close").index("node", node),
    }
}

fn at_gate(name: &'static str, gate: Gate) -> Term {
    match gate {
        Gate::Mount(mount) => Term::new(name).index("mount", mount),
        Gate::Level(level) => Term::new(name).index("level", level),
    }
}

/// An answer; `used` is the blocks charged then.
pub(crate) fn answer_term(answer: Result<Reply, GateError>, used: u64) -> Term {
    match answer {
        Ok(Reply::Unit) => Term::new("ok"),
        Ok(Reply::Node(node)) => Term::new("ok").index("node", node),
        Ok(Reply::Ran(ran)) => Term::new("ok").flag("ran", ran),
        Ok(Reply::Tree) => Term::new("ok").number("used", used),
        Err(GateError::Hook(code)) => Term::new("refused").number("hook", u64::from(code)),
        Err(refusal) => Term::new("refused")
            .number("errno", u64::from(refusal.number()))
            .word("name", refusal.name()),
    }
}
