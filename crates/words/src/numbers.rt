//! Words as numbers in decimal.
ghost use Rattle.std.specs.Prelude.{◌≡◌, ◌+◌, ◌*◌, ◌^◌, Some, None, Result, MatchOption};
ghost use Rattle.std.specs.Result.{result_ok};
ghost use Rattle.words.specs.Laws.{ReadAgain};
ghost use Rattle.words.specs.Numbers.{under, bits_in, integer_in};

/// The number with one more digit behind it, below 2^64.
fn with_digit(value: u64, digit: u8) -> Option<u64>
    ensures { result ≡ under (2 ^ 64) (Some (value * 10 + digit)) }
{
    value.checked_mul(10)?.checked_add(digit as u64)
}

/// A number of digits alone, below 2^64. The library's `parse` would take a `+` before them.
pub fn natural(word: &[u8]) -> Option<u64>
    ensures { result ≡ bits_in 64 word.now }
{
    if word.is_empty() {
        return None;
    }
    let mut value = 0u64;
    for byte in word {
        if !byte.is_ascii_digit() {
            return None;
        }
        value = with_digit(value, *byte - b'0')?;
    }
    Some(value)
}

/// A number of digits alone, where its type holds it.
fn natural_of<N: TryFrom<u64>>(word: &[u8]) -> Option<N>
where
    N::Error: Drop,
    ensures { MatchOption (bits_in 64 word.now) (result ≡ None) (λ n. (r : Result N N.Error) × N.try_from_gives n r × (result ≡ result_ok r)) }
{
    N::try_from(natural(word)?).ok()
}

/// A number of 32 bits.
pub fn natural_32(word: &[u8]) -> Option<u32>
    ensures { result ≡ bits_in 32 word.now }
{
    natural_of::<u32>(word)
}

/// A number of 16 bits.
pub fn natural_16(word: &[u8]) -> Option<u16>
    ensures { result ≡ bits_in 16 word.now }
{
    natural_of::<u16>(word)
}

/// A number of 8 bits.
pub fn natural_8(word: &[u8]) -> Option<u8>
    ensures { result ≡ bits_in 8 word.now }
{
    natural_of::<u8>(word)
}

/// A signed number of 64 bits, with `-` where it is below zero.
pub fn integer(word: &[u8]) -> Option<i64>
    ensures { result ≡ integer_in word.now }
{
    match word {
        [b'-', digits @ ..] => 0i64.checked_sub_unsigned(natural(digits)?),
        _ => i64::try_from(natural(word)?).ok(),
    }
}

/// The law of numbers: what is written of one in decimal is read as that number.
pub fn numbers_read_again()
    ensures { ReadAgain }
{}
