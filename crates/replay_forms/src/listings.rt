//! The words that `words` and `tree` list.

use cpu_words::WordName;
use gate_transitions::Driver;
use std::alloc::{AllocError, Global};
use transcripts::Session;

/// What a listing is of.
#[derive(Clone, Copy, PartialEq, Eq)]
pub(crate) enum ListingKind {
    Words,
    Tree,
    Model,
}

impl ListingKind {
    /// The line that asks for it.
    pub(crate) fn name(self) -> &'static str {
        match self {
            ListingKind::Words => "words",
            ListingKind::Tree => "tree",
            ListingKind::Model => "model",
        }
    }
}

/// A word, and its value now.
#[derive(Clone, Copy)]
pub(crate) struct Listed {
    pub(crate) word: WordName,
    pub(crate) value: u64,
}

/// The words of a listing, also those that are 0, in their order.
pub(crate) fn words_of<D: Driver>(
    alloc: Global,
    session: &Session<D>,
    listing: ListingKind,
) -> Result<Vec<Listed>, AllocError> {
    let mut words = WordLister {
        session,
        listed: Vec::new(alloc),
    };
    match listing {
        ListingKind::Words => words.add_gates()?,
        ListingKind::Tree => words.add_tree()?,
        ListingKind::Model => {}
    }
    let WordLister { listed, .. } = words;
    Ok(listed)
}

/// The words of the superblock and of its freeze.
const SUPERBLOCK: [WordName; 6] = [
    WordName::Umount,
    WordName::Stage,
    WordName::Holders,
    WordName::SbFlags,
    WordName::Remount,
    WordName::Removed,
];

/// The words that were found so far.
#[derive(Drop)]
struct WordLister<'a, D> {
    session: &'a Session<D>,
    listed: Vec<Listed>,
}

impl<'a, D: Driver> WordLister<'a, D> {
    /// Adds a word, where the configuration has it.
    fn add(&mut self, word: WordName) -> Result<(), AllocError> {
        if let Some(value) = self.session.word(word) {
            self.listed.push(Listed { word, value })?;
        }
        Ok(())
    }

    fn add_gates(&mut self) -> Result<(), AllocError> {
        for word in &SUPERBLOCK {
            self.add(*word)?;
        }
        for mount in 0..8 {
            self.add_mount(mount)?;
        }
        for level in 1..4 {
            self.add_level(level)?;
        }
        for task in 0..self.session.tasks() {
            self.add(WordName::Section(task))?;
        }
        Ok(())
    }

    fn add_mount(&mut self, mount: u8) -> Result<(), AllocError> {
        self.add(WordName::MountFlags(mount))?;
        for cpu in 0..64 {
            self.add(WordName::MountCount(mount, cpu))?;
        }
        Ok(())
    }

    fn add_level(&mut self, level: u8) -> Result<(), AllocError> {
        self.add(WordName::Block(level))?;
        self.add(WordName::Sync(level))?;
        for cpu in 0..64 {
            self.add(WordName::LevelCount(level, cpu))?;
        }
        Ok(())
    }

    fn add_tree(&mut self) -> Result<(), AllocError> {
        self.add(WordName::Used)?;
        for node in 0..64 {
            self.add(WordName::Node(node))?;
        }
        for node in 0..64 {
            self.add(WordName::Kids(node))?;
        }
        Ok(())
    }
}
