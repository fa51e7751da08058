//! How words, events, actions and replies are printed.

ghost use Rattle.std.specs.Prelude.{◌≡◌, ◌++◌, codes, decimal};
ghost use Rattle.schedule_lines.specs.Printed.{Prints};
ghost use Rattle.schedule_lines.specs.Printing.{count_name, word_text, word_line, kind_text, event_text, event_line, gate_text, pair_text, held_text, holder_line, action_text, kind_name, reply_text, refusal_text, answer_text, answer_line, refused_line, idle_line, waiting_line, model_line, read_only_mount_line, held_mount_line, held_level_line, open_file_line, node_line, numbered};
ghost use Rattle.access_model.specs.declared.actions.Action.TheVariants.{Create};

use crate::output::Output;
use access_model::{Action, Gate, GateError, Holder, Kind, NodeInfo, Reply};
use cpu_words::{Event, Touch, WordName};

impl Output {
    /// The name of a word, as `mount0.cpu1`.
    #[tactic(auto, unfolding(crate::specs::Printing::word_text))]
    pub fn word_name(&mut self, name: WordName)
        ensures { Prints self.old self.new (word_text name) }
    {
        match name {
            WordName::Umount => self.text(b"umount"),
            WordName::Stage => self.text(b"stage"),
            WordName::Holders => self.text(b"holders"),
            WordName::SbFlags => self.text(b"sb"),
            WordName::Remount => self.text(b"remount"),
            WordName::Removed => self.text(b"removed"),
            WordName::MountFlags(mount) => {
                self.indexed(b"mount", mount);
                self.text(b".flags");
            }
            WordName::MountCount(mount, cpu) => self.count_name(b"mount", mount, cpu),
            WordName::Block(level) => self.indexed(b"block", level),
            WordName::Sync(level) => self.indexed(b"sync", level),
            WordName::LevelCount(level, cpu) => self.count_name(b"level", level, cpu),
            WordName::Section(task) => self.indexed(b"section", task),
            WordName::Used => self.text(b"used"),
            WordName::Node(node) => self.indexed(b"node", node),
            WordName::Kids(node) => self.indexed(b"kids", node),
        }
    }

    /// The name of a gate's count on a processor.
    fn count_name(&mut self, gate: &[u8], number: u8, cpu: u8)
        ensures { Prints self.old self.new (count_name gate.now number cpu) }
    {
        self.indexed(gate, number);
        self.indexed(b".cpu", cpu);
    }

    /// A word with its value, on a line of its own.
    #[tactic(auto, unfolding(crate::specs::Printing::word_line))]
    pub fn word_line(&mut self, name: WordName, value: u64)
        ensures { Prints self.old self.new (word_line name value) }
    {
        self.word_name(name);
        self.numbered(b" ", value);
        self.text(b"\n");
    }

    /// An event of a task, with the action that it added, on a line of its own.
    #[tactic(auto, unfolding(crate::specs::Printing::event_line))]
    pub fn event_line(&mut self, task: u8, event: Event, action: Option<Action>, waiting: bool)
        ensures { Prints self.old self.new (event_line task event action waiting) }
    {
        self.event(task, event);
        if let Some(action) = action {
            self.text(b" ");
            self.action(action);
        }
        self.text(if waiting { b" waiting\n" } else { b"\n" });
    }

    /// An event of a task: `T KIND WORD FOUND LEFT`, but `T store WORD VALUE`.
    #[tactic(auto, unfolding(crate::specs::Printing::event_text))]
    fn event(&mut self, task: u8, event: Event)
        ensures { Prints self.old self.new (event_text task event) }
    {
        self.number(u64::from(task));
        self.text(kind_of(event.touch));
        self.word_name(event.word);
        if let Touch::Store(value) = event.touch {
            self.numbered(b" ", value);
        } else {
            self.numbered(b" ", event.found);
            self.numbered(b" ", event.left);
        }
    }

    /// What is done to a freeze, and for whom.
    fn held(&mut self, done: &[u8], holder: Holder)
        ensures { Prints self.old self.new (held_text done.now holder) }
    {
        self.text(done);
        self.text(match holder {
            Holder::Kernel => b" kernel",
            Holder::User => b" user",
        });
    }

    /// One who holds a freeze, on a line of its own.
    #[tactic(auto, unfolding(crate::specs::Printing::holder_line))]
    pub fn holder_line(&mut self, holder: Holder)
        ensures { Prints self.old self.new (holder_line holder) }
    {
        self.held(b"holder", holder);
        self.text(b"\n");
    }

    /// An action of the model, as `grant mount 0`.
    #[tactic(auto, unfolding(crate::specs::Printing::action_text))]
    pub fn action(&mut self, action: Action)
        ensures { Prints self.old self.new (action_text action) }
    {
        match action {
            Action::Grant(gate) => self.gate(b"grant ", gate),
            Action::Return(gate) => self.gate(b"return ", gate),
            Action::MountRo(mount) => self.mount_state(mount, b" ro"),
            Action::MountRw(mount) => self.mount_state(mount, b" rw"),
            Action::SbRo => self.text(b"sb ro"),
            Action::SbRw => self.text(b"sb rw"),
            Action::Stage(stage) => self.indexed(b"stage ", stage),
            Action::Hold(holder) => self.held(b"hold", holder),
            Action::Leave(holder) => self.held(b"leave", holder),
            Action::Pass(level) => self.indexed(b"pass ", level),
            Action::Reopen(level) => self.indexed(b"reopen ", level),
            Action::Create { node, dir, kind } => self.created(node, dir, kind),
            Action::Remove(node) => self.indexed(b"remove ", node),
            Action::Grow { node, blocks } => self.pair(b"grow ", node, u64::from(blocks)),
            Action::MoveTo { node, dir } => self.pair(b"move ", node, u64::from(dir)),
            Action::Dirty(node) => self.indexed(b"dirty ", node),
            Action::Clean(node) => self.indexed(b"clean ", node),
            Action::Open(node) => self.indexed(b"open ", node),
            Action::Close(node) => self.indexed(b"close ", node),
        }
    }

    fn gate(&mut self, name: &[u8], gate: Gate)
        ensures { Prints self.old self.new (name.now ++ gate_text gate) }
    {
        self.text(name);
        match gate {
            Gate::Mount(mount) => self.indexed(b"mount ", mount),
            Gate::Level(level) => self.indexed(b"level ", level),
        }
    }

    fn mount_state(&mut self, mount: u8, state: &[u8])
        ensures { Prints self.old self.new (numbered (codes "mount ") mount ++ state.now) }
    {
        self.indexed(b"mount ", mount);
        self.text(state);
    }

    #[tactic(auto, unfolding(crate::specs::Printing::action_text))]
    fn created(&mut self, node: u8, dir: u8, kind: Kind)
        ensures { Prints self.old self.new (action_text (Create node dir kind)) }
    {
        self.pair(b"create ", node, u64::from(dir));
        self.text(kind_name(kind));
    }

    fn pair(&mut self, name: &[u8], node: u8, second: u64)
        ensures { Prints self.old self.new (pair_text name.now node second) }
    {
        self.indexed(name, node);
        self.numbered(b" ", second);
    }

    /// How an operation of a task ended; `used` is the blocks charged then.
    pub fn answer(&mut self, task: u8, answer: Result<Reply, GateError>, used: u64)
        ensures { Prints self.old self.new (decimal task ++ answer_text answer used) }
    {
        self.number(u64::from(task));
        match answer {
            Ok(reply) => self.reply(reply, used),
            Err(refusal) => self.refusal(refusal),
        }
    }

    /// Prints an answer on a line of its own.
    #[tactic(auto, unfolding(crate::specs::Printing::answer_line))]
    pub fn answer_line(&mut self, task: u8, answer: Result<Reply, GateError>, used: u64)
        ensures { Prints self.old self.new (answer_line task answer used) }
    {
        self.answer(task, answer, used);
        self.text(b"\n");
    }

    fn reply(&mut self, reply: Reply, used: u64)
        ensures { Prints self.old self.new (reply_text reply used) }
    {
        match reply {
            Reply::Unit => self.text(b" ok"),
            Reply::Node(node) => self.indexed(b" ok node ", node),
            Reply::Ran(true) => self.text(b" ok ran"),
            Reply::Ran(false) => self.text(b" ok none"),
            Reply::Tree => self.numbered(b" ok used ", used),
        }
    }

    #[tactic(auto, unfolding(crate::specs::Printing::refusal_text))]
    fn refusal(&mut self, refusal: GateError)
        ensures { Prints self.old self.new (refusal_text refusal) }
    {
        match refusal {
            GateError::Hook(code) => self.numbered(b" refused hook ", u64::from(code)),
            _ => {
                self.numbered(b" refused ", u64::from(refusal.number()));
                self.text(b" ");
                self.text(refusal.name().as_bytes());
            }
        }
    }

    /// That a beginning was refused.
    #[tactic(auto, unfolding(crate::specs::Printing::refused_line))]
    pub fn refused_line(&mut self, task: u8, refusal: GateError)
        ensures { Prints self.old self.new (refused_line task refusal) }
    {
        self.number(u64::from(task));
        self.refusal(refusal);
        self.text(b"\n");
    }

    /// That a task has no operation under way.
    #[tactic(auto, unfolding(crate::specs::Printing::idle_line))]
    pub fn idle_line(&mut self, task: u8)
        ensures { Prints self.old self.new (idle_line task) }
    {
        self.number(u64::from(task));
        self.text(b" idle\n");
    }

    /// That a task has to look or try again.
    #[tactic(auto, unfolding(crate::specs::Printing::waiting_line))]
    pub fn waiting_line(&mut self, task: u8)
        ensures { Prints self.old self.new (waiting_line task) }
    {
        self.number(u64::from(task));
        self.text(b" waiting\n");
    }

    /// The first line of a model.
    #[tactic(auto, unfolding(crate::specs::Printing::model_line))]
    pub fn model_line(&mut self, stage: u8, passed: u8, sb_ro: bool)
        ensures { Prints self.old self.new (model_line stage passed sb_ro) }
    {
        self.indexed(b"model stage ", stage);
        self.indexed(b" passed ", passed);
        self.text(if sb_ro { b" sb ro\n" } else { b" sb rw\n" });
    }

    /// That a mount is read-only by its own flag.
    #[tactic(auto, unfolding(crate::specs::Printing::read_only_mount_line))]
    pub fn read_only_mount_line(&mut self, mount: u8)
        ensures { Prints self.old self.new (read_only_mount_line mount) }
    {
        self.indexed(b"mount ", mount);
        self.text(b" ro\n");
    }

    /// How many accesses a task holds at a mount.
    #[tactic(auto, unfolding(crate::specs::Printing::held_mount_line))]
    pub fn held_mount_line(&mut self, task: u8, mount: u8, count: u16)
        ensures { Prints self.old self.new (held_mount_line task mount count) }
    {
        self.indexed(b"task ", task);
        self.indexed(b" mount ", mount);
        self.numbered(b" ", u64::from(count));
        self.text(b"\n");
    }

    /// That a task is inside a level.
    #[tactic(auto, unfolding(crate::specs::Printing::held_level_line))]
    pub fn held_level_line(&mut self, task: u8, level: u8)
        ensures { Prints self.old self.new (held_level_line task level) }
    {
        self.indexed(b"task ", task);
        self.indexed(b" level ", level);
        self.text(b"\n");
    }

    /// That a task has a file open.
    #[tactic(auto, unfolding(crate::specs::Printing::open_file_line))]
    pub fn open_file_line(&mut self, task: u8, file: u8)
        ensures { Prints self.old self.new (open_file_line task file) }
    {
        self.indexed(b"task ", task);
        self.indexed(b" open ", file);
        self.text(b"\n");
    }

    /// A node: `node N file|dir PARENT SIZE clean|dirty`, and `removed` where it is a file that was removed while open.
    #[tactic(auto, unfolding(crate::specs::Printing::node_line))]
    pub fn node_line(&mut self, node: u8, info: NodeInfo)
        ensures { Prints self.old self.new (node_line node info) }
    {
        self.indexed(b"node ", node);
        self.text(kind_name(info.kind));
        self.indexed(b" ", info.parent);
        self.numbered(b" ", u64::from(info.size));
        self.text(if info.dirty { b" dirty" } else { b" clean" });
        self.text(if info.removed { b" removed\n" } else { b"\n" });
    }
}

/// The kind of an event, between its task and its word.
fn kind_of(touch: Touch) -> &'static [u8]
    ensures { result.now ≡ kind_text touch }
{
    match touch {
        Touch::Load => b" load ",
        Touch::Store(_) => b" store ",
        Touch::Add(_) => b" add ",
        Touch::Sub(_) => b" sub ",
        Touch::Or(_) => b" or ",
        Touch::And(_) => b" and ",
        Touch::Swap(_) => b" swap ",
        Touch::Cas { .. } => b" cas ",
    }
}

/// What a node is, with a space before it.
fn kind_name(kind: Kind) -> &'static [u8]
    ensures { result.now ≡ kind_name kind }
{
    match kind {
        Kind::File => b" file",
        Kind::Dir => b" dir",
    }
}
