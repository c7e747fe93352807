//! What is used of a code area.
ghost use Rattle.std.specs.Prelude.{◌≡◌, true, false, MatchOption};
ghost use Rattle.calculus.specs.Held.{counted};
ghost use Rattle.calculus.specs.Text.{text_of, used, rooms, within, none_used};

use crate::code::{Code, CodeArea, Counts, ListEntry, MethodEntry, Operation, Tables};
use crate::stack::MOST_ENTRIES;

/// How many entries an area of this length counts as.
pub fn counted_len(len: usize) -> u32
    ensures { result ≡ counted len }
{
    len.min(MOST_ENTRIES) as u32
}

/// How many entries each table counts as.
pub fn rooms_of(tables: &Tables<'_>) -> Counts
    ensures { result ≡ rooms tables.now }
{
    Counts {
        contents: counted_len(tables.contents.len()),
        operations: counted_len(tables.operations.len()),
        methods: counted_len(tables.methods.len()),
    }
}

/// Whether no count is past its table.
pub fn fits_in(counts: Counts, rooms: Counts) -> bool
    ensures { result ≡ within counts rooms }
{
    counts.contents <= rooms.contents
        && counts.operations <= rooms.operations
        && counts.methods <= rooms.methods
}

/// The used parts of tables that are lent to be read alone, unless a count is past its table.
pub fn used_of<'b>(tables: &'b Tables<'_>, counts: Counts) -> Option<Code<'b>>
    ensures { MatchOption result (within counts (rooms tables.now) ≡ false) (λ c. (within counts (rooms tables.now) ≡ true) × (text_of c ≡ used tables.now counts)) }
{
    if !fits_in(counts, rooms_of(tables)) {
        return None;
    }
    let contents: &[ListEntry] = &*tables.contents;
    let operations: &[Operation] = &*tables.operations;
    let methods: &[MethodEntry] = &*tables.methods;
    Some(Code {
        contents: &contents[..counts.contents as usize],
        operations: &operations[..counts.operations as usize],
        methods: &methods[..counts.methods as usize],
    })
}

impl<'a> CodeArea<'a> {
    /// An area of which nothing is used yet. Its tables may hold anything.
    pub fn new(tables: Tables<'a>) -> CodeArea<'a>
        ensures tables { result.tables ≡ tables.entry }
        ensures counts { result.counts ≡ none_used }
    {
        CodeArea {
            tables,
            counts: Counts::default(),
        }
    }

    /// The used parts of the tables, unless a count is past its table.
    pub fn used(&self) -> Option<Code<'_>>
        ensures { MatchOption result (within self.now.counts (rooms self.now.tables) ≡ false) (λ c. (within self.now.counts (rooms self.now.tables) ≡ true) × (text_of c ≡ used self.now.tables self.now.counts)) }
    {
        used_of(&self.tables, self.counts)
    }
}
