//! The word of those who hold a freeze.

ghost use Rattle.std.specs.Prelude.{◌≡◌, ◌≤◌};
ghost use Rattle.freeze_levels.specs.Holders.{word_of, holders_in};

use access_model::Holders;

/// The word of these holders: the kernel 1, user space 2.
#[inline(always)]
pub fn pack(holders: Holders) -> u64
    ensures word { result ≡ word_of holders }
    ensures small { result ≤ 3 }
{
    let kernel: u64 = if holders.kernel { 1 } else { 0 };
    let user: u64 = if holders.user { 2 } else { 0 };
    kernel + user
}

/// The holders that a word tells of.
#[inline(always)]
pub fn unpack(word: u64) -> Holders
    ensures { result ≡ holders_in word }
{
    Holders {
        kernel: word % 2 == 1,
        user: word / 2 % 2 == 1,
    }
}
