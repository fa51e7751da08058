//! A text that is put together.

use crate::forms::Form;
use crate::nearest::Nearest;
use schedule_text::Verb;
use std::alloc::{AllocError, Global};
use std::fmt::Display;

/// A text that is put together. Whether there was memory for it is asked once, at its end.
#[derive(Drop)]
pub struct Text {
    alloc: Global,
    text: String,
    /// Whether memory was refused.
    is_refused: bool,
}

impl Text {
    /// Creates an empty text.
    pub fn new(alloc: Global) -> Text {
        Text {
            alloc,
            text: String::new(alloc),
            is_refused: false,
        }
    }

    /// Appends a value as it is displayed.
    pub fn put<D: Display + Drop>(&mut self, shown: D) {
        self.is_refused |= self.text.write_fmt(shown).is_err();
    }

    /// Appends bytes: those that are no graphic character and no space as they are written in C, so that none of them moves a terminal's cursor.
    pub fn bytes(&mut self, bytes: &[u8]) {
        for byte in bytes {
            match *byte {
                b'\t' => self.put("\\t"),
                b'\r' => self.put("\\r"),
                b' ' => self.put(' '),
                graphic if graphic.is_ascii_graphic() => self.put(char::from(graphic)),
                other => self.put(format_args!("\\x{other:02x}")),
            }
        }
    }

    /// Appends a text in quotes, behind another one.
    pub fn quoted(&mut self, before: &str, text: &str) {
        self.put(before);
        self.put(" '");
        self.put(text);
        self.put("'");
    }

    /// Appends a character so many times.
    pub fn repeated(&mut self, character: char, count: usize) {
        for _ in 0..count {
            self.put(character);
        }
    }

    /// Returns the nearest of the names of some forms to a word, if one is near. Capital letters count as small ones.
    pub(crate) fn nearest(&mut self, word: &[u8], forms: &[Form]) -> Option<&'static str> {
        let shown = self.in_small_letters(word);
        let mut nearest = Nearest::new(self.alloc, shown.text.as_str());
        for (name, _) in forms {
            nearest.compare(*name);
        }
        self.is_refused |= nearest.is_refused;
        nearest.name
    }

    /// Returns the nearest of the verbs to a word in the same way.
    pub(crate) fn nearest_verb(&mut self, word: &[u8]) -> Option<&'static str> {
        let shown = self.in_small_letters(word);
        let mut nearest = Nearest::new(self.alloc, shown.text.as_str());
        for verb in &Verb::ALL {
            nearest.compare(verb.name());
        }
        self.is_refused |= nearest.is_refused;
        nearest.name
    }

    /// Returns a word in small letters.
    fn in_small_letters(&mut self, word: &[u8]) -> Text {
        let mut shown = Text::new(self.alloc);
        for byte in word {
            shown.bytes(&[byte.to_ascii_lowercase()]);
        }
        self.is_refused |= shown.is_refused;
        shown
    }

    /// Returns the text.
    ///
    /// # Errors
    ///
    /// `AllocError` if there was no memory for it.
    pub fn ended(self) -> Result<String, AllocError> {
        if self.is_refused {
            Err(AllocError)
        } else {
            Ok(self.text)
        }
    }
}
