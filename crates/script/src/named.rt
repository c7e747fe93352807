//! What a word of a script can be read as.
ghost use Rattle.std.specs.Prelude.{◌≡◌, ℕ, List, true, Option, refl};
ghost use Rattle.words.specs.Names.{named, all_low};
ghost use Rattle.words.specs.Numbers.{bits_in};
ghost use Rattle.signs.specs.Reading.{row_in, value_in};

use calculus::rows::Row;
use calculus::values::Value;
use signs::read::{read_row, read_value};
use words::numbers::natural_32;

/// What a word can be read as.
pub(crate) trait OfWord: Sized {
    /// What a word is read as, if it is any of these.
    ghost in_word: { List ℕ → Option Self };

    fn of_word(word: &[u8]) -> Option<Self>
        ensures { result ≡ in_word word.now };
}

impl OfWord for u32 {
    ghost in_word = { bits_in 32 };

    fn of_word(word: &[u8]) -> Option<u32> {
        natural_32(word)
    }
}

impl OfWord for Row {
    ghost in_word = { row_in };

    fn of_word(word: &[u8]) -> Option<Row> {
        read_row(word)
    }
}

impl OfWord for Value {
    ghost in_word = { value_in };

    fn of_word(word: &[u8]) -> Option<Value> {
        read_value(word)
    }
}

/// What has a name in a script.
pub(crate) trait Named: Sized {
    /// Each name, before what it is the name of.
    ghost names: { List (List ℕ × Self) };

    fn of_name(name: &str) -> Option<Self>
        ensures { result ≡ named names name.now };

    /// Names are text, so bytes that are none are no name.
    ghost names_are_low: { all_low names ≡ true };
}

/// What a word is the name of.
pub(crate) fn by_name<N: Named>(word: &[u8]) -> Option<N>
    ensures { result ≡ named N.names word.now }
{
    N::of_name(std::str::from_utf8(word).ok()?)
}
