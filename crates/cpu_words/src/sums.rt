//! The sum of one gate's count words, read one after the other.

ghost use Rattle.std.specs.Prelude.{◌≡◌, ℕ, ◌<◌, List, [], ◌∷◌, ◌++◌, length};
ghost use Rattle.cpu_words.specs.Sums.{sum_taking, sum_of, taken_of};

/// A sum in progress: how many words were taken (0 to 63), and their wrapping sum.
#[derive(Clone, Copy, PartialEq, Eq)]
pub struct Sum {
    pub words: u8,
    pub total: u64,
}

/// What taking a word gives: a sum that has to go on, or, at the last word, the wrapping sum of all words.
#[derive(Clone, Copy)]
pub enum Taken {
    More(Sum),
    Total(u64),
}

impl Sum {
    /// The sum of no word.
    #[inline(always)]
    pub fn start() -> Sum
        ensures { result ≡ record { words = 0; total = 0 } }
    {
        Sum { words: 0, total: 0 }
    }

    /// The sum with the next word, of so many processors (1 to 64, and above the number of words already taken): `Total`
    /// where it was the last one. A single word may have wrapped below 0, where an access was given back on another
    /// processor than it was taken on: only the total means something.
    #[inline(always)]
    pub fn take(self, word: u64, processors: u8) -> Taken
        ensures step { result ≡ sum_taking self word processors }
        ensures words { (taken : List ℕ) → length taken < processors → self ≡ sum_of taken →
            result ≡ taken_of (taken ++ word ∷ []) processors }
    {
        let total = self.total.wrapping_add(word);
        // Wider than the count of words, so that the test says the same of a sum that is past its end.
        if u16::from(self.words) + 1 < u16::from(processors) {
            let words = self.words + 1;
            Taken::More(Sum { words, total })
        } else {
            Taken::Total(total)
        }
    }
}
