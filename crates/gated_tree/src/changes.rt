//! The calls that change which nodes there are, and where: create, remove and move.

ghost use Rattle.std.specs.Prelude.{◌≡◌};
ghost use Rattle.access_model.specs.declared.replies.Next.TheVariants.{Go};
ghost use Rattle.node_words.specs.Nodes.{new_node, unpacked};
ghost use Rattle.gated_tree.specs.Phases.{create_next, at_create, create_past, create_looked, create_after, remove_next, at_remove, remove_after, move_next, at_move, move_after};
ghost use Rattle.gated_tree.specs.declared.changes.{CreateStep.TheVariants.LoadsDirectory, RemoveStep.TheVariants.LoadsFile as LoadsFileToRemove, MoveStep.TheVariants.LoadsFile as LoadsFileToMove};

use access_model::{Action, GateError, Kind, Next, Reply};
use cpu_words::{Touch, WordName};
use node_words::{NodeWord, following};

/// What the next step of a create is.
#[derive(Clone, Copy, PartialEq, Eq)]
pub enum CreateStep {
    /// Loads the directory's node.
    LoadsDirectory,
    /// Loads this node, to see whether it is free.
    LoadsNode(u8),
    /// Charges a child to the directory, with this node to be taken.
    ChargesChild(u8),
    /// Takes this node, where it is still free.
    TakesNode(u8),
    /// Subtracts the child that it charged, and is refused.
    RefundsChild,
}

/// A create of a file or a directory under way, in a directory, among so many nodes (`vfs_create`, `vfs_mkdir`).
#[derive(Clone, Copy, PartialEq, Eq)]
pub struct Create {
    pub dir: u8,
    pub kind: Kind,
    pub nodes: u8,
    pub step: CreateStep,
}

/// What the next step of a remove is. `file` is the file's node as it was loaded.
#[derive(Clone, Copy, PartialEq, Eq)]
pub enum RemoveStep {
    /// Loads the file's node.
    LoadsFile,
    /// Frees the node, where it is as it was loaded.
    FreesNode(NodeWord),
    /// Counts one removed file more, since some task has this one open.
    CountsRemoved(NodeWord),
    /// Marks the file as removed, and clean, where its node is as it was loaded.
    MarksRemoved(NodeWord),
    /// Counts one removed file less, and is refused.
    RefundsRemoved,
    /// Subtracts the blocks that were charged for this file.
    RefundsBlocks(NodeWord),
    /// Subtracts the child that was charged for this file.
    RefundsChild(NodeWord),
}

/// A remove of a file under way (`vfs_unlink`). Where some task has the file open, it keeps its node and its blocks until its last close
/// (`drop_nlink`, which raises `s_remove_count`).
#[derive(Clone, Copy, PartialEq, Eq)]
pub struct Remove {
    pub file: u8,
    pub step: RemoveStep,
}

/// What the next step of a move is.
#[derive(Clone, Copy, PartialEq, Eq)]
pub enum MoveStep {
    /// Loads the file's node.
    LoadsFile,
    /// Loads the node of the new directory, with the file's node as it was loaded.
    LoadsDirectory(NodeWord),
    /// Charges a child to the new directory.
    ChargesChild(NodeWord),
    /// Gives the file its new parent, where its node is as it was loaded.
    MovesFile(NodeWord),
    /// Subtracts a child from this directory, and answers this.
    RefundsChild(u8, Result<Reply, GateError>),
}

/// A move of a file to a directory under way (`vfs_rename`). A move to the present parent has the same steps.
#[derive(Clone, Copy, PartialEq, Eq)]
pub struct MoveTo {
    pub file: u8,
    pub dir: u8,
    pub step: MoveStep,
}

impl Create {
    /// A create before its first step, among so many nodes.
    #[inline(always)]
    pub fn new(dir: u8, kind: Kind, nodes: u8) -> Create
        ensures { result ≡ record { dir = dir; kind = kind; nodes = nodes; step = LoadsDirectory } }
    {
        Create {
            dir,
            kind,
            nodes,
            step: CreateStep::LoadsDirectory,
        }
    }

    /// The node that it makes: empty and clean.
    fn made(self) -> NodeWord
        ensures { result ≡ new_node self.kind self.dir }
    {
        NodeWord {
            kind: Some(self.kind),
            dirty: false,
            removed: false,
            parent: self.dir,
            opens: 0,
            size: 0,
        }
    }

    /// The word and the touch of the next step.
    #[inline(always)]
    pub fn next(self) -> (WordName, Touch)
        ensures { result ≡ create_next self self.step }
    {
        let kids = WordName::Kids(self.dir);
        match self.step {
            CreateStep::LoadsDirectory => (WordName::Node(self.dir), Touch::Load),
            CreateStep::LoadsNode(node) => (WordName::Node(node), Touch::Load),
            CreateStep::ChargesChild(_) => (kids, Touch::Add(1)),
            CreateStep::TakesNode(node) => {
                let put = self.made().pack();
                let expect = NodeWord::FREE;
                (WordName::Node(node), Touch::Cas { expect, put })
            }
            CreateStep::RefundsChild => (kids, Touch::Sub(1)),
        }
    }

    /// Returns the create with this step to come.
    fn at(self, step: CreateStep) -> Next<Create>
        ensures { result ≡ Go (at_create self step) }
    {
        Next::Go(Create { step, ..self })
    }

    /// What comes after a node was found taken: a look at the next one, if there is one.
    fn past(self, node: u8) -> Next<Create>
        ensures { result ≡ create_past self node }
    {
        match following(node, self.nodes) {
            Some(next) => self.at(CreateStep::LoadsNode(next)),
            None => Next::Done(Err(GateError::NoSpace)),
        }
    }

    /// What comes after a look at a node, whose word was this.
    fn looked(self, node: u8, found: u64) -> Next<Create>
        ensures { result ≡ create_looked self node (unpacked found) }
    {
        match NodeWord::unpack(found) {
            None => self.at(CreateStep::LoadsNode(node)),
            Some(NodeWord { kind: None, .. }) => self.at(CreateStep::ChargesChild(node)),
            Some(_) => self.past(node),
        }
    }

    /// What comes after the step, which found this, and the action that the step adds.
    #[inline(always)]
    pub fn after(self, found: u64) -> (Next<Create>, Option<Action>)
        ensures { result ≡ create_after self self.step found }
    {
        let next = match self.step {
            CreateStep::LoadsDirectory => match NodeWord::directory(found) {
                None => Next::Go(self),
                Some(Err(refusal)) => Next::Done(Err(refusal)),
                Some(Ok(_)) => self.at(CreateStep::LoadsNode(1)),
            },
            CreateStep::LoadsNode(node) => self.looked(node, found),
            CreateStep::ChargesChild(node) => self.at(CreateStep::TakesNode(node)),
            CreateStep::TakesNode(node) if found == NodeWord::FREE => {
                let (dir, kind) = (self.dir, self.kind);
                let created = Action::Create { node, dir, kind };
                return (Next::Done(Ok(Reply::Node(node))), Some(created));
            }
            CreateStep::TakesNode(_) => self.at(CreateStep::RefundsChild),
            CreateStep::RefundsChild => Next::Done(Err(GateError::Again)),
        };
        (next, None)
    }
}

impl Remove {
    /// A remove before its first step.
    #[inline(always)]
    pub fn new(file: u8) -> Remove
        ensures { result ≡ record { file = file; step = LoadsFileToRemove } }
    {
        Remove {
            file,
            step: RemoveStep::LoadsFile,
        }
    }

    /// The word and the touch of the next step.
    #[inline(always)]
    pub fn next(self) -> (WordName, Touch)
        ensures { result ≡ remove_next self self.step }
    {
        match self.step {
            RemoveStep::LoadsFile => (WordName::Node(self.file), Touch::Load),
            RemoveStep::FreesNode(file) => {
                let expect = file.pack();
                let put = NodeWord::FREE;
                (WordName::Node(self.file), Touch::Cas { expect, put })
            }
            RemoveStep::CountsRemoved(_) => (WordName::Removed, Touch::Add(1)),
            RemoveStep::MarksRemoved(file) => {
                let expect = file.pack();
                let put = NodeWord {
                    dirty: false,
                    removed: true,
                    ..file
                }
                .pack();
                (WordName::Node(self.file), Touch::Cas { expect, put })
            }
            RemoveStep::RefundsRemoved => (WordName::Removed, Touch::Sub(1)),
            RemoveStep::RefundsBlocks(file) => (WordName::Used, Touch::Sub(u64::from(file.size))),
            RemoveStep::RefundsChild(file) => (WordName::Kids(file.parent), Touch::Sub(1)),
        }
    }

    /// Returns the remove with this step to come.
    fn at(self, step: RemoveStep) -> Next<Remove>
        ensures { result ≡ Go (at_remove self step) }
    {
        Next::Go(Remove { step, ..self })
    }

    /// What comes after the step, which found this, and the action that the step adds.
    #[inline(always)]
    pub fn after(self, found: u64) -> (Next<Remove>, Option<Action>)
        ensures { result ≡ remove_after self self.step found }
    {
        let next = match self.step {
            RemoveStep::LoadsFile => match NodeWord::file(found) {
                None => Next::Go(self),
                Some(Err(refusal)) => Next::Done(Err(refusal)),
                Some(Ok(file)) if file.opens == 0 => self.at(RemoveStep::FreesNode(file)),
                Some(Ok(file)) => self.at(RemoveStep::CountsRemoved(file)),
            },
            RemoveStep::FreesNode(file) if file.is_still(found) => {
                let removed = Action::Remove(self.file);
                return (self.at(RemoveStep::RefundsBlocks(file)), Some(removed));
            }
            RemoveStep::FreesNode(_) => Next::Done(Err(GateError::Again)),
            RemoveStep::CountsRemoved(file) => self.at(RemoveStep::MarksRemoved(file)),
            RemoveStep::MarksRemoved(file) if file.is_still(found) => {
                let removed = Action::Remove(self.file);
                return (self.at(RemoveStep::RefundsChild(file)), Some(removed));
            }
            RemoveStep::MarksRemoved(_) => self.at(RemoveStep::RefundsRemoved),
            RemoveStep::RefundsRemoved => Next::Done(Err(GateError::Again)),
            RemoveStep::RefundsBlocks(file) => self.at(RemoveStep::RefundsChild(file)),
            RemoveStep::RefundsChild(_) => Next::Done(Ok(Reply::Unit)),
        };
        (next, None)
    }
}

impl MoveTo {
    /// A move before its first step.
    #[inline(always)]
    pub fn new(file: u8, dir: u8) -> MoveTo
        ensures { result ≡ record { file = file; dir = dir; step = LoadsFileToMove } }
    {
        MoveTo {
            file,
            dir,
            step: MoveStep::LoadsFile,
        }
    }

    /// The word and the touch of the next step.
    #[inline(always)]
    pub fn next(self) -> (WordName, Touch)
        ensures { result ≡ move_next self self.step }
    {
        match self.step {
            MoveStep::LoadsFile => (WordName::Node(self.file), Touch::Load),
            MoveStep::LoadsDirectory(_) => (WordName::Node(self.dir), Touch::Load),
            MoveStep::ChargesChild(_) => (WordName::Kids(self.dir), Touch::Add(1)),
            MoveStep::MovesFile(file) => {
                let parent = self.dir;
                let expect = file.pack();
                let put = NodeWord { parent, ..file }.pack();
                (WordName::Node(self.file), Touch::Cas { expect, put })
            }
            MoveStep::RefundsChild(dir, _) => (WordName::Kids(dir), Touch::Sub(1)),
        }
    }

    /// Returns the move with this step to come.
    fn at(self, step: MoveStep) -> Next<MoveTo>
        ensures { result ≡ Go (at_move self step) }
    {
        Next::Go(MoveTo { step, ..self })
    }

    /// What comes after the step, which found this, and the action that the step adds.
    #[inline(always)]
    pub fn after(self, found: u64) -> (Next<MoveTo>, Option<Action>)
        ensures { result ≡ move_after self self.step found }
    {
        let next = match self.step {
            MoveStep::LoadsFile => match NodeWord::file(found) {
                None => Next::Go(self),
                Some(Err(refusal)) => Next::Done(Err(refusal)),
                Some(Ok(file)) => self.at(MoveStep::LoadsDirectory(file)),
            },
            MoveStep::LoadsDirectory(file) => match NodeWord::directory(found) {
                None => Next::Go(self),
                Some(Err(refusal)) => Next::Done(Err(refusal)),
                Some(Ok(_)) => self.at(MoveStep::ChargesChild(file)),
            },
            MoveStep::ChargesChild(file) => self.at(MoveStep::MovesFile(file)),
            MoveStep::MovesFile(file) if file.is_still(found) => {
                let (node, dir) = (self.file, self.dir);
                let left = MoveStep::RefundsChild(file.parent, Ok(Reply::Unit));
                return (self.at(left), Some(Action::MoveTo { node, dir }));
            }
            MoveStep::MovesFile(_) => {
                self.at(MoveStep::RefundsChild(self.dir, Err(GateError::Again)))
            }
            MoveStep::RefundsChild(_, answer) => Next::Done(answer),
        };
        (next, None)
    }
}
