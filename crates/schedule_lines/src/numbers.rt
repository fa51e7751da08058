//! Numbers of schedules.

ghost use Rattle.std.specs.Prelude.{◌≡◌, ◌≤◌, true, length};
ghost use Rattle.std.specs.Char.{is_ascii_digit};
ghost use Rattle.std.specs.List.{list_all};
ghost use Rattle.std.specs.Str.Parse.{digits_value};
ghost use Rattle.schedule_lines.specs.Numbers.{is_digits, number_of, byte_of, code_of};

/// The most digits that a number may have.
const DIGITS: usize = 10;

/// Whether a word is of digits alone, and not empty.
#[tactic(auto, unfolding(crate::specs::Numbers::is_digits))]
pub fn is_digits(word: &[u8]) -> bool
    ensures { result ≡ is_digits word.now }
{
    for byte in word {
        if !byte.is_ascii_digit() {
            return false;
        }
    }
    !word.is_empty()
}

/// What the digits write.
fn value_of(digits: &[u8]) -> u64
    requires digits { list_all is_ascii_digit digits.now ≡ true }
    requires few { length digits.now ≤ 10 }
    ensures { result ≡ digits_value 10 digits.now }
{
    let mut value: u64 = 0;
    for digit in digits {
        value = value * 10 + u64::from(*digit - b'0');
    }
    value
}

/// The number that a word is: 1 to 10 digits, and at most 4,294,967,295. Most have one digit.
#[tactic(auto, unfolding(crate::specs::Numbers::number_of))]
pub fn number_of(word: &[u8]) -> Option<u32>
    ensures { result ≡ number_of word.now }
{
    if let [digit] = word
        && digit.is_ascii_digit()
    {
        return Some(u32::from(*digit - b'0'));
    }
    if word.len() > DIGITS || !is_digits(word) {
        return None;
    }
    u32::try_from(value_of(word)).ok()
}

/// The number that is handed to a call that takes a `u8`: a larger one is out of range for every such call, as 255 is.
pub fn byte_of(number: u32) -> u8
    ensures { result ≡ byte_of number }
{
    number.min(255) as u8
}

/// The code of a hook that a word is: 1 to 65,535.
#[tactic(auto, unfolding(crate::specs::Numbers::code_of))]
pub fn code_of(word: &[u8]) -> Option<u16>
    ensures { result ≡ code_of word.now }
{
    match number_of(word) {
        Some(number) if 0 < number && number < 65_536 => Some(number as u16),
        _ => None,
    }
}
