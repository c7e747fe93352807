//! Which lists are those of a program.
ghost use Rattle.std.specs.Prelude.{◌≡◌, ◌+◌, ◌≤◌, length, drop};
ghost use Rattle.calculus.specs.Text.{text_of};
ghost use Rattle.listing.specs.Extent.{run, end_of, Extent};

use calculus::code::{Code, ListEntry};

/// The number of the first list from a number on that is no body, or where the contents end.
fn bodies_end(contents: &[ListEntry], from: usize) -> usize
    requires { from ≤ length contents.now }
    ensures { result ≡ from + run (drop from contents.now) }
{
    from + contents[from..]
        .iter()
        .take_while(|entry| entry.mark == 0)
        .count()
}

/// The number after the last list of a program, if there is such a main list: its bodies are those that follow it.
pub fn lists_end(program: u32, code: &Code<'_>) -> Option<usize>
    ensures { result ≡ end_of (text_of code.now) program }
{
    code.list(program)?.givens()?;
    Some(bodies_end(code.contents, program as usize + 1))
}

/// A compiled program has as many lists as its term's sizes say.
pub fn extent()
    ensures { Extent }
{}
