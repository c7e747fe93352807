//! The code area: operation lists in three lent tables, and how much of each is used.
ghost use Rattle.std.specs.Prelude.{slice_get, ◌≡◌, ◌+◌};
ghost use Rattle.calculus.specs.Text.{text_of, main_mark};

use crate::lookup::entry_at;

/// One operation. A list is one head (access, figure, object) and its followers.
#[derive(Clone, Copy)]
pub enum Operation {
    /// The value of the variable with this index.
    Access(u32),
    Figure(i64),
    /// A new object of `count` methods, whose entries begin at `first`.
    Object { first: u32, count: u32 },
    Select(u16),
    /// The label, and the list of the new body.
    Update(u16, u32),
    Clone,
    /// The list of the body.
    Let(u32),
}

/// An entry of the contents: where a list stands in the operation table.
#[derive(Clone, Copy, Default)]
pub struct ListEntry {
    pub first: u32,
    pub len: u32,
    /// 0 for a body; for a main list the number of its givens and 1: the format of a code area, as it is lent and read.
    pub mark: u32,
}

/// An entry of the method table: a label, and the list of its body.
#[derive(Clone, Copy, Default)]
pub struct MethodEntry {
    pub label: u16,
    pub list: u32,
}

/// How many entries of each table: what is used of an area, or what a program takes of it.
#[derive(Clone, Copy, PartialEq, Eq, Debug, Default)]
pub struct Counts {
    pub contents: u32,
    pub operations: u32,
    pub methods: u32,
}

/// The three tables, as they are lent to be written. (`Code` is what is lent of them to be read, `Counts` how much; no field of one has the type of another's.)
#[derive(Drop)]
pub struct Tables<'a> {
    pub contents: &'a mut [ListEntry],
    pub operations: &'a mut [Operation],
    pub methods: &'a mut [MethodEntry],
}

/// A code area: its tables, and how much of each is used. A count may be past its table; each call that reads the area looks at that first.
#[derive(Drop)]
pub struct CodeArea<'a> {
    pub tables: Tables<'a>,
    pub counts: Counts,
}

/// The used parts of the three tables, as they are lent to be read.
#[derive(Clone, Copy)]
pub struct Code<'a> {
    pub contents: &'a [ListEntry],
    pub operations: &'a [Operation],
    pub methods: &'a [MethodEntry],
}

impl ListEntry {
    /// How many givens the program takes whose main list this is; none where it is a body.
    pub fn givens(self) -> Option<u32>
        ensures { result ≡ main_mark self.mark }
    {
        self.mark.checked_sub(1)
    }
}

impl Code<'_> {
    /// The entry of the list of this number, if there is one.
    pub fn list(&self, number: u32) -> Option<ListEntry>
        ensures { result ≡ slice_get (text_of self.now).contents number }
    {
        entry_at(self.contents, number as usize)
    }

    /// What stands at a place, counted from 0, from the first operation of a list on, if the table reaches so far.
    pub fn operation(&self, list: ListEntry, place: u32) -> Option<Operation>
        ensures { result ≡ slice_get (text_of self.now).operations (list.first + place) }
    {
        entry_at(self.operations, list.first as usize + place as usize)
    }

    /// What stands at a place, counted from 0, from a first method entry on, if the table reaches so far.
    pub fn method(&self, first: u32, place: u32) -> Option<MethodEntry>
        ensures { result ≡ slice_get (text_of self.now).methods (first + place) }
    {
        entry_at(self.methods, first as usize + place as usize)
    }
}
