//! Refusals: each condition a case, with its number and its place.
ghost use Rattle.std.specs.Prelude.{◌≡◌};
ghost use Rattle.calculus.specs.Refusals.{row_number, number_of, place_of};

/// What is wrong with a row, or with where the rows end.
#[derive(Clone, Copy, PartialEq, Eq, Debug)]
pub enum RowFault {
    /// An unknown kind, a method row where none belongs, or none where one does.
    Kind = 3,
    /// Deeper than 200.
    Depth = 4,
    /// Fewer than 0 methods, or more than 64.
    MethodCount = 5,
    /// A label for the second time in one object.
    LabelTwice = 6,
    /// An index below 1, or past the binders and the givens.
    Index = 7,
    /// The rows end inside the term.
    Ends = 8,
    /// Rows are left after the term.
    Left = 9,
}

/// Why a check, a compile, a listing back or a start is refused.
#[derive(Clone, Copy, PartialEq, Eq, Debug)]
pub enum Refusal {
    /// No rows, or more than 65,535.
    RowCount,
    /// More than 16 givens.
    GivenCount,
    /// A fault, and the row at which it stands.
    AtRow(RowFault, u32),
    ContentsFull,
    OperationsFull,
    MethodsFull,
    /// A program is running already.
    Running,
    /// The number is not that of a main list.
    NoProgram,
    /// More or fewer givens than the program takes.
    WrongGivens,
    /// A given names an object that is not there.
    NoSuchObject,
    /// Too few cells for the givens.
    CellsShort,
    /// A count is past its area.
    CountOutside,
    /// The code does not belong together at this operation of this list.
    Astray { list: u32, operation: u32 },
    /// No room for this list among the lists begun and not ended.
    StackFull { list: u32 },
    /// The row area is too short.
    RowsShort,
}

/// Where a refusal stands.
#[derive(Clone, Copy, PartialEq, Eq, Debug)]
pub enum Place {
    /// Nowhere in particular, shown as 0.
    Whole,
    Row(u32),
    /// An operation, counted from 0 in its list.
    Operation { list: u32, operation: u32 },
}

impl RowFault {
    /// The number by which the fault is known.
    pub fn number(self) -> u32
        ensures { result ≡ row_number self }
    {
        self as u32
    }
}

impl Refusal {
    /// The number by which the refusal is known.
    pub fn number(self) -> u32
        ensures { result ≡ number_of self }
    {
        // by cases: some carry values, and two have one number
        match self {
            Refusal::RowCount => 1,
            Refusal::GivenCount => 2,
            Refusal::AtRow(fault, _) => fault.number(),
            Refusal::ContentsFull => 10,
            Refusal::OperationsFull => 11,
            Refusal::MethodsFull => 12,
            Refusal::Running => 13,
            Refusal::NoProgram => 14,
            Refusal::WrongGivens => 15,
            Refusal::NoSuchObject => 16,
            Refusal::CellsShort => 17,
            Refusal::CountOutside => 19,
            Refusal::Astray { .. } => 19,
            Refusal::StackFull { .. } => 24,
            Refusal::RowsShort => 33,
        }
    }

    /// Where it stands.
    pub fn place(self) -> Place
        ensures { result ≡ place_of self }
    {
        match self {
            Refusal::RowCount | Refusal::GivenCount => Place::Row(0),
            Refusal::AtRow(_, row) => Place::Row(row),
            Refusal::Astray { list, operation } => Place::Operation { list, operation },
            Refusal::StackFull { list } => Place::Operation { list, operation: 0 },
            _ => Place::Whole,
        }
    }
}
