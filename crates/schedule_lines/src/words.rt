//! Words of a line. They are separated by one space, so two spaces have an empty word between them.

ghost use Rattle.std.specs.Prelude.{◌≡◌, ◌≤◌, length, bytes_eq};
ghost use Rattle.std.specs.List.{position_or_len};
ghost use Rattle.schedule_lines.specs.Words.{is_space, first_word, after_word, word_count};

const SPACE: u8 = b' ';

/// Whether a word is this one.
pub fn is_word(word: &[u8], text: &str) -> bool
    ensures { result ≡ bytes_eq word.now text.now }
{
    word == text.as_bytes()
}

/// How many words a line has.
#[tactic(auto, unfolding(crate::specs::Words::word_count))]
pub fn word_count(line: &[u8]) -> usize
    ensures { result ≡ word_count line.now }
{
    let mut words = 1;
    for byte in line {
        if *byte == SPACE {
            words += 1;
        }
    }
    words
}

/// Where the first word ends.
#[tactic(auto, using(std::proofs::lemmas::List::Sums::position_or_len_is))]
fn word_end(text: &[u8]) -> usize
    ensures end { result ≡ position_or_len is_space text.now }
    ensures within { result ≤ length text.now }
{
    for (index, byte) in text.iter().enumerate() {
        if *byte == SPACE {
            return index;
        }
    }
    text.len()
}

/// The first word: all bytes before the first space.
#[tactic(auto, unfolding(crate::specs::Words::first_word))]
pub fn first_word(text: &[u8]) -> &[u8]
    ensures { result.now ≡ first_word text.now }
{
    &text[..word_end(text)]
}

/// What follows the space after the first word; nothing, where it is the only one.
#[tactic(auto, unfolding(crate::specs::Words::after_word))]
pub fn after_word(text: &[u8]) -> &[u8]
    ensures { result.now ≡ after_word text.now }
{
    let end = word_end(text);
    if end < text.len() {
        &text[end + 1..]
    } else {
        &text[end..]
    }
}

/// The first word, and what follows the space after it.
#[tactic(auto, unfolding(crate::specs::Words::first_word, crate::specs::Words::after_word))]
pub fn split_word(text: &[u8]) -> (&[u8], &[u8])
    ensures first { result.0.now ≡ first_word text.now }
    ensures after { result.1.now ≡ after_word text.now }
{
    let end = word_end(text);
    if end < text.len() {
        (&text[..end], &text[end + 1..])
    } else {
        (&text[..end], &text[end..])
    }
}
