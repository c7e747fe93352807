//! The words of a line of input.
use calculus::code::Operation;
use std::alloc::{AllocError, Global};

/// A word: its first byte that is no digit, if it has one, and its digits as a number, which wraps.
#[derive(Clone, Copy, Default)]
pub(crate) struct Word {
    pub(crate) letter: Option<u8>,
    pub(crate) number: u32,
}

/// A word with one more byte.
fn longer(word: Word, byte: u8) -> Word {
    match byte {
        b'0'..=b'9' => Word {
            number: word
                .number
                .wrapping_mul(10)
                .wrapping_add(u32::from(byte - b'0')),
            ..word
        },
        _ => Word {
            letter: word.letter.or(Some(byte)),
            ..word
        },
    }
}

/// The words of a line, which one space parts: between two spaces stands an empty one.
pub(crate) fn read_words(heap: Global, line: &[u8]) -> Result<Vec<Word>, AllocError> {
    let mut words = Vec::new(heap);
    let mut word = Word::default();
    for byte in line {
        if *byte == b' ' {
            words.push(word)?;
            word = Word::default();
        } else {
            word = longer(word, *byte);
        }
    }
    words.push(word)?;
    Ok(words)
}

/// The word at a place; one without letter and number where there is none.
pub(crate) fn word_at(words: &[Word], place: usize) -> Word {
    words.get(place).copied().unwrap_or_default()
}

/// The operation that a word names, with the number of the next word.
pub(crate) fn operation_of(word: Word, next: u32) -> Operation {
    let Word { letter, number } = word;
    let label = (number % 65536) as u16;
    match letter {
        Some(b'A') => Operation::Access(number),
        Some(b'F') => Operation::Figure(i64::from(number)),
        Some(b'O') => Operation::Object {
            first: number,
            count: next,
        },
        Some(b'S') => Operation::Select(label),
        Some(b'U') => Operation::Update(label, next),
        Some(b'L') => Operation::Let(number),
        _ => Operation::Clone,
    }
}
