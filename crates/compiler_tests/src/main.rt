//! Runs compile and list_back as the lines of the input say: on worked examples, on code areas made by hand, and on
//! many tables made at random. Each line is repeated in the output; one that is no command, as a comment, asks for nothing more.
#![tactic(auto)]

mod making;
mod showing;
mod trying;
mod word;

use crate::making::{clones, object, one_more, rows_in};
use crate::trying::{Space, large, many};
use crate::word::{Word, operation_of, read_words, word_at};
use calculus::code::{Counts, ListEntry, MethodEntry};
use compiler_bench::lets;
use std::io;

/// Does what a line asks for, by the first letter of its first word; a number that is not there is 0.
fn obey(rt: &HostRuntime, space: &mut Space, words: &[Word]) -> io::Result<()> {
    let heap = rt.alloc();
    let number = |place| word_at(words, place).number;
    match word_at(words, 0).letter {
        Some(b't') => space.resize(heap, number(1), number(2), number(3)),
        Some(b'c') => space.compile(
            rt,
            &rows_in(heap, words.get(2..).unwrap_or(&[]))?,
            number(1),
        ),
        Some(b'b') => space.back(rt, number(1), number(2), number(3)),
        Some(b's') => space.show(rt),
        Some(b'd') => large(rt, &clones(heap, number(1))?),
        Some(b'w') => large(rt, &object(heap, number(1))?),
        Some(b'h') => large(rt, &lets(heap, number(1))?),
        Some(b'e') => large(rt, &one_more(heap, number(1))?),
        Some(b'r') => many(rt, number(1)),
        Some(b'l') => {
            space.store_list(
                number(1),
                ListEntry {
                    first: number(2),
                    len: number(3),
                    mark: number(4),
                },
            );
            Ok(())
        }
        Some(b'o') => {
            space.store_operation(number(1), operation_of(word_at(words, 2), number(3)));
            Ok(())
        }
        Some(b'm') => {
            space.store_method(
                number(1),
                MethodEntry {
                    label: (number(2) % 65536) as u16,
                    list: number(3),
                },
            );
            Ok(())
        }
        Some(b'u') => {
            space.counts = Counts {
                contents: number(1),
                operations: number(2),
                methods: number(3),
            };
            Ok(())
        }
        _ => Ok(()),
    }
}

fn main(rt: HostRuntime) -> io::Result<()> {
    let heap = rt.alloc();
    let mut space = Space::new(heap);
    for line in rt.lines(heap) {
        let text = line?;
        println!(rt; "{text}")?;
        let words = read_words(heap, text.as_bytes())?;
        obey(&rt, &mut space, &words)?;
    }
    Ok(())
}
