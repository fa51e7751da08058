//! Records of what is seen, a JSON object on each line.

use crate::forms::Style;
use crate::listings::{Listed, ListingKind};
use crate::page::{Page, text_of};
use crate::terms::{FieldValue, Term, action_term, answer_term, call_term, holder_word, kind_word};
use crate::trace::{Entry, Happening, Taken, touch_name};
use crate::waits::{Culprit, Wait};
use access_model::{GateError, Holder, NodeInfo};
use cpu_words::{Touch, WordName};
use gate_transitions::Driver;
use model_state::Model;
use schedule_lines::Output;
use serde_json::{Map, Value};
use std::alloc::Global;
use transcripts::Session;

/// The largest number that every reader of JSON keeps: 2^53.
const EXACT: u64 = 9_007_199_254_740_992;

/// An object that is filled. Memory that was refused is noted, and seen where the record is printed.
#[derive(Drop)]
pub(crate) struct Record {
    alloc: Global,
    members: Map<String, Value>,
    is_whole: bool,
}

impl Record {
    /// An object with no member.
    pub(crate) fn new(alloc: Global) -> Record {
        Record {
            alloc,
            members: Map::new(alloc),
            is_whole: true,
        }
    }

    /// A record of this kind.
    pub(crate) fn of_kind(alloc: Global, kind: &str) -> Record {
        let mut record = Record::new(alloc);
        record.text("record", kind);
        record
    }

    /// Puts a member into the object.
    fn put(&mut self, name: &str, value: Value) {
        self.is_whole &= serde_json::put(&mut self.members, self.alloc, name, value).is_ok();
    }

    /// Puts a text.
    pub(crate) fn text(&mut self, name: &str, text: &str) {
        match Value::try_from_str(self.alloc, text) {
            Ok(value) => self.put(name, value),
            Err(_) => self.is_whole = false,
        }
    }

    /// Puts a number: as a text, where some readers of JSON would round it.
    pub(crate) fn number(&mut self, name: &str, number: u64) {
        if number <= EXACT {
            return self.put(name, number.into());
        }
        let mut digits = Output::new(self.alloc);
        digits.number(number);
        self.printed(name, &digits);
    }

    /// Puts a text that was printed.
    fn printed(&mut self, name: &str, text: &Output) {
        self.is_whole &= text.is_whole;
        self.text(name, text_of(text.bytes.as_slice()));
    }

    /// Puts a yes or no.
    pub(crate) fn flag(&mut self, name: &str, flag: bool) {
        self.put(name, Value::Bool(flag));
    }

    /// Puts that there is nothing.
    fn nothing(&mut self, name: &str) {
        self.put(name, Value::Null);
    }

    /// Puts an object.
    fn object(&mut self, name: &str, record: Record) {
        self.is_whole &= record.is_whole;
        let Record { members, .. } = record;
        self.put(name, Value::Object(members));
    }

    /// Puts a list.
    pub(crate) fn list(&mut self, name: &str, list: List) {
        self.is_whole &= list.is_whole;
        let List { items, .. } = list;
        self.put(name, Value::Array(items));
    }

    /// Puts the name of a term, and its values.
    fn term(&mut self, name: &str, term: Term) {
        self.text(name, term.name);
        for field in term.fields.iter().flatten() {
            match field.value {
                FieldValue::Number(number) => self.number(field.name, number),
                FieldValue::Word(word) => self.text(field.name, word),
                FieldValue::Flag(flag) => self.flag(field.name, flag),
            }
        }
    }

    /// Puts a term as an object, with its name as `name`.
    fn term_object(&mut self, name: &str, term: Term) {
        let mut object = Record::new(self.alloc);
        object.term("name", term);
        self.object(name, object);
    }

    /// Puts the name of a word.
    fn word(&mut self, name: &str, word: WordName, style: Style) {
        let mut out = Output::new(self.alloc);
        style.name(&mut out, word);
        self.printed(name, &out);
    }

    /// Prints the object on a line of its own; says whether there was memory for it.
    pub(crate) fn print(self, out: &mut Output) {
        let Record {
            alloc,
            members,
            is_whole,
        } = self;
        match Value::Object(members).to_string(alloc) {
            Ok(text) if is_whole => out.line(text.as_bytes()),
            _ => out.is_whole = false,
        }
    }
}

/// A list that is filled.
#[derive(Drop)]
pub(crate) struct List {
    items: Vec<Value>,
    is_whole: bool,
}

impl List {
    /// An empty list.
    pub(crate) fn new(alloc: Global) -> List {
        List {
            items: Vec::new(alloc),
            is_whole: true,
        }
    }

    fn push(&mut self, value: Value) {
        self.is_whole &= serde_json::push(&mut self.items, value).is_ok();
    }

    /// Puts an object behind the others.
    pub(crate) fn object(&mut self, record: Record) {
        self.is_whole &= record.is_whole;
        let Record { members, .. } = record;
        self.push(Value::Object(members));
    }

    fn number(&mut self, number: u8) {
        self.push(u64::from(number).into());
    }

    fn text(&mut self, alloc: Global, text: &str) {
        match Value::try_from_str(alloc, text) {
            Ok(value) => self.push(value),
            Err(_) => self.is_whole = false,
        }
    }
}

/// Prints the record of an entry.
pub(crate) fn print_entry(entry: &Entry, style: Style, page: &mut Page) {
    let kind = match entry.happens {
        Happening::Begins { .. } => "begin",
        Happening::Steps(_) => "step",
        _ => "answer",
    };
    let mut record = record_of(kind, page);
    record.number("task", u64::from(entry.task));
    match entry.happens {
        Happening::Begins { call, .. } => record.term("call", call_term(call)),
        Happening::Unbegun { refusal, reason } => {
            put_refusal(&mut record, refusal);
            if let Some(reason) = reason {
                record.term_object("reason", reason.term());
            }
        }
        Happening::Steps(taken) => put_step(&mut record, &taken, style),
        Happening::Answers { answer, used } => record.term("answer", answer_term(answer, used)),
        Happening::GoesOn => record.text("answer", "waiting"),
        Happening::IsForbidden => record.text("answer", "forbidden"),
        Happening::IsIdle => record.text("answer", "idle"),
    }
    record.print(&mut page.out);
}

/// A record of this kind, of the next line of the schedule.
fn record_of(kind: &str, page: &Page) -> Record {
    let mut record = Record::of_kind(page.alloc, kind);
    record.number("line", u64::from(page.lines).saturating_add(1));
    record
}

fn put_refusal(record: &mut Record, refusal: GateError) {
    record.term("answer", answer_term(Err(refusal), 0));
}

fn put_step(record: &mut Record, taken: &Taken, style: Style) {
    let event = taken.event;
    record.text("touch", touch_name(event.touch));
    record.word("word", event.word, style);
    match event.touch {
        Touch::Store(_) => record.nothing("found"),
        _ => record.number("found", event.found),
    }
    record.number("left", event.left);
    match taken.action {
        Some(action) => record.term_object("action", action_term(action)),
        None => record.nothing("action"),
    }
    match taken.wait {
        Some(wait) => put_wait(record, wait, style),
        None => record.nothing("waits_for"),
    }
}

fn put_wait(record: &mut Record, wait: Wait, style: Style) {
    let mut object = Record::new(record.alloc);
    object.word("word", wait.word, style);
    match wait.culprit {
        Culprit::Task(task) => object.number("task", u64::from(task)),
        Culprit::Freeze => object.flag("freeze", true),
        Culprit::Gone => {}
    }
    record.object("waits_for", object);
}

/// Prints the record of listed words, of those that aren't 0.
pub(crate) fn print_words(listing: ListingKind, words: &[Listed], style: Style, page: &mut Page) {
    let mut record = record_of(listing.name(), page);
    let mut items = List::new(page.alloc);
    for listed in words {
        if listed.value != 0 {
            let mut item = Record::new(page.alloc);
            item.word("word", listed.word, style);
            item.number("value", listed.value);
            items.object(item);
        }
    }
    record.list("items", items);
    record.print(&mut page.out);
}

/// Prints the record of the model.
pub(crate) fn print_model<D: Driver>(session: &Session<D>, page: &mut Page) {
    let mut record = record_of(ListingKind::Model.name(), page);
    let model = session.model();
    record.number("stage", u64::from(model.stage()));
    record.number("passed", u64::from(model.passed()));
    record.text("sb", if model.sb_ro() { "ro" } else { "rw" });
    record.list("holders", holders(page.alloc, model));
    record.list("read_only_mounts", read_only_mounts(page.alloc, model));
    record.list("tasks", tasks(page.alloc, session.tasks(), model));
    record.list("nodes", nodes(page.alloc, model));
    record.print(&mut page.out);
}

fn holders(alloc: Global, model: &Model) -> List {
    let mut list = List::new(alloc);
    for holder in [Holder::Kernel, Holder::User].iter() {
        if model.holds(*holder) {
            list.text(alloc, holder_word(*holder));
        }
    }
    list
}

fn read_only_mounts(alloc: Global, model: &Model) -> List {
    let mut list = List::new(alloc);
    for mount in 0..8 {
        if model.mount_ro(mount) {
            list.number(mount);
        }
    }
    list
}

/// What each task holds.
fn tasks(alloc: Global, tasks: u8, model: &Model) -> List {
    let mut list = List::new(alloc);
    for task in 0..tasks {
        let mut item = Record::new(alloc);
        item.number("task", u64::from(task));
        item.list("mounts", held_mounts(alloc, task, model));
        item.list("levels", held_levels(alloc, task, model));
        item.list("open", open_nodes(alloc, task, model));
        list.object(item);
    }
    list
}

fn held_mounts(alloc: Global, task: u8, model: &Model) -> List {
    let mut list = List::new(alloc);
    for mount in 0..8 {
        let count = model.held_mount(task, mount);
        if count > 0 {
            let mut item = Record::new(alloc);
            item.number("mount", u64::from(mount));
            item.number("accesses", u64::from(count));
            list.object(item);
        }
    }
    list
}

fn held_levels(alloc: Global, task: u8, model: &Model) -> List {
    let mut list = List::new(alloc);
    for level in 1..4 {
        if model.held_level(task, level) {
            list.number(level);
        }
    }
    list
}

fn open_nodes(alloc: Global, task: u8, model: &Model) -> List {
    let mut list = List::new(alloc);
    for node in 0..64 {
        if model.has_open(task, node) {
            list.number(node);
        }
    }
    list
}

/// The nodes that are not free.
fn nodes(alloc: Global, model: &Model) -> List {
    let mut list = List::new(alloc);
    for node in 0..64 {
        if let Some(info) = model.tree(node) {
            list.object(node_record(alloc, node, info));
        }
    }
    list
}

fn node_record(alloc: Global, node: u8, info: NodeInfo) -> Record {
    let mut item = Record::new(alloc);
    item.number("node", u64::from(node));
    item.text("kind", kind_word(info.kind));
    item.number("parent", u64::from(info.parent));
    item.number("size", u64::from(info.size));
    item.flag("dirty", info.dirty);
    item.flag("removed", info.removed);
    item
}
