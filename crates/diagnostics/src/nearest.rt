//! The name that is nearest to a word.

use std::alloc::{AllocError, Global};
use strsim::osa_distance;

/// How many letters a word may differ in from the one that was meant.
const FAR: usize = 2;

/// A word, and the nearest of the names that it was compared with.
#[derive(Clone, Copy)]
pub struct Nearest<'a> {
    alloc: Global,
    word: &'a str,
    /// How many letters a name may differ in no more, to be nearer than all so far.
    least: usize,
    /// The nearest name, the first of several; None, if none is near.
    pub name: Option<&'static str>,
    /// Whether memory was refused: then a name was left out.
    pub is_refused: bool,
}

impl<'a> Nearest<'a> {
    /// Takes a word that was compared with no name.
    pub fn new(alloc: Global, word: &'a str) -> Nearest<'a> {
        Nearest {
            alloc,
            word,
            least: FAR.saturating_add(1).min(word.len()),
            name: None,
            is_refused: false,
        }
    }

    /// Compares the word with a name.
    pub fn compare(&mut self, name: &'static str) {
        match osa_distance(self.alloc, self.word, name) {
            Ok(distance) if distance < self.least => {
                self.name = Some(name);
                self.least = distance;
            }
            Ok(_) => {}
            Err(AllocError) => self.is_refused = true,
        }
    }
}
