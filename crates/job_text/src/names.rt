// Words at the front of a text, and values that are named by them.
ghost use Rattle.std.specs.Prelude.{◌≡◌, ℕ, List, [], Contains, MatchOption};
ghost use Rattle.numerals.specs.Numerals.{ending_byte};
ghost use Rattle.job_text.specs.Jobs.{ReadsWord, NoWord};

use numerals::{Ending, after_prefix};

/// A value that a job text writes as one word.
pub trait Named: Copy {
    // the word that stands for a value
    ghost word_of: { Self → List ℕ };

    /// The word that stands for the value.
    fn word(self) -> &'static [u8]
        ensures { result.now ≡ word_of self };
}

/// What comes after the ending byte; none where the text does not begin with it.
fn after_ending(text: &[u8], ending: Ending) -> Option<&[u8]>
    ensures { MatchOption result (NoWord text.now [] (ending_byte ending)) (λ rest. ReadsWord text.now [] (ending_byte ending) rest.now) }
{
    match text {
        [byte, rest @ ..] if *byte == ending.byte() => Some(rest),
        _ => None,
    }
}

/// What comes after a word and the byte that ends it; none where the text does not begin so.
fn read_word<'a>(text: &'a [u8], word: &[u8], ending: Ending) -> Option<&'a [u8]>
    ensures { MatchOption result (NoWord text.now word.now (ending_byte ending)) (λ rest. ReadsWord text.now word.now (ending_byte ending) rest.now) }
{
    let rest = after_prefix(text, word)?;
    after_ending(rest, ending)
}

/// The first of the values whose word the text begins with, and what comes after the word's ending.
pub fn read_name<'a, N: Named>(text: &'a [u8], names: &[N], ending: Ending) -> Option<(N, &'a [u8])>
    ensures { MatchOption result ((n : N) → Contains names.now n → NoWord text.now (N.word_of n) (ending_byte ending)) (λ p. ReadsWord text.now (N.word_of p.0) (ending_byte ending) p.1.now) }
{
    names.iter().find_map(|name| Some((*name, read_word(text, name.word(), ending)?)))
}
