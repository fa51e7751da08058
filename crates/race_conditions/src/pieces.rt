//! The pieces of a condition's text: words of letters and digits, and each other byte alone. Blanks stand between them, where one likes.

ghost use Rattle.std.specs.Prelude.{◌≡◌, ◌-◌, ◌≤◌, length, drop};
ghost use Rattle.std.specs.List.{position_or_len};
ghost use Rattle.race_conditions.specs.Pieces.{end_of, front_piece, is_next, is_no_blank, is_no_word, piece_at, start_of, unexpected};

use crate::faults::{Expected, Unexpected};
use schedule_lines::words::is_word;

const BLANK: u8 = b' ';

/// The bytes from an index on; none, where it is past the end.
fn rest_of(text: &[u8], at: usize) -> &[u8]
    ensures rest { result.now ≡ drop at text.now }
    ensures count { length result.now ≡ length text.now - at }
{
    if at < text.len() {
        &text[at..]
    } else {
        &text[text.len()..]
    }
}

/// How many blanks there are first.
#[tactic(auto, using(std::proofs::lemmas::List::Sums::position_or_len_is))]
fn blanks(text: &[u8]) -> usize
    ensures count { result ≡ position_or_len is_no_blank text.now }
    ensures within { result ≤ length text.now }
{
    for (index, byte) in text.iter().enumerate() {
        if *byte != BLANK {
            return index;
        }
    }
    text.len()
}

/// How many letters and digits there are first.
#[tactic(auto, using(std::proofs::lemmas::List::Sums::position_or_len_is))]
fn word_length(text: &[u8]) -> usize
    ensures count { result ≡ position_or_len is_no_word text.now }
    ensures within { result ≤ length text.now }
{
    for (index, byte) in text.iter().enumerate() {
        if !byte.is_ascii_alphanumeric() {
            return index;
        }
    }
    text.len()
}

/// The piece that the bytes begin with; nothing, where there are none.
fn front_piece(text: &[u8]) -> &[u8]
    ensures piece { result.now ≡ front_piece text.now }
    ensures within { length result.now ≤ length text.now }
{
    let count = word_length(text);
    if count > 0 {
        &text[..count]
    } else if text.is_empty() {
        text
    } else {
        &text[..1]
    }
}

/// Where the first piece from an index on begins.
#[tactic(auto, unfolding(crate::specs::Pieces::start_of))]
fn start_of(text: &[u8], at: usize) -> usize
    ensures { result ≡ start_of text.now at }
{
    at + blanks(rest_of(text, at))
}

/// The first piece from an index on; nothing at the end.
#[tactic(auto, unfolding(crate::specs::Pieces::piece_at))]
pub fn piece_at(text: &[u8], at: usize) -> &[u8]
    ensures piece { result.now ≡ piece_at text.now at }
    ensures within { length result.now ≤ length text.now - start_of text.now at }
{
    front_piece(rest_of(text, start_of(text, at)))
}

/// Where it ends.
#[tactic(auto, unfolding(crate::specs::Pieces::end_of))]
pub fn end_of(text: &[u8], at: usize) -> usize
    ensures { result ≡ end_of text.now at }
{
    start_of(text, at) + piece_at(text, at).len()
}

/// Whether it is this one.
pub fn is_next(text: &[u8], at: usize, word: &str) -> bool
    ensures { result ≡ is_next text.now at word.now }
{
    is_word(piece_at(text, at), word)
}

/// Something else was expected where the first piece from an index on begins.
pub fn unexpected(text: &[u8], at: usize, expected: Expected) -> Unexpected
    ensures { result ≡ unexpected text.now at expected }
{
    Unexpected {
        after: start_of(text, at),
        expected,
    }
}
