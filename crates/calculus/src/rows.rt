//! Rows: a term as a table, each term's own row followed by its parts.
ghost use Rattle.std.specs.Prelude.{◌≡◌};
ghost use Rattle.calculus.specs.Kinds.{kind_number, Decodes};
ghost use Rattle.calculus.specs.Rows.{row};

/// What a row is.
#[derive(Clone, Copy, PartialEq, Eq, Debug)]
pub enum RowKind {
    /// `number` is the variable's index, 1 for the nearest enclosing binder.
    Variable = 1,
    /// `number` is the figure.
    Figure = 2,
    /// `number` says how many method rows follow.
    Object = 3,
    /// Of `label`: the receiver follows.
    Select = 4,
    /// Of `label`: the receiver and the new body follow.
    Update = 5,
    /// The receiver follows.
    Clone = 6,
    /// The bound term and the body follow.
    Let = 7,
    /// Of `label`, only as a part of an object: the body follows.
    Method = 8,
}

/// A number by which no kind of row is known.
#[derive(Clone, Copy, PartialEq, Eq, Debug)]
pub struct UnknownKind(pub u8);

impl TryFrom<u8> for RowKind {
    type Error = UnknownKind;

    ghost try_from_gives = { Decodes };

    fn try_from(number: u8) -> Result<RowKind, UnknownKind> {
        match number {
            1 => Ok(RowKind::Variable),
            2 => Ok(RowKind::Figure),
            3 => Ok(RowKind::Object),
            4 => Ok(RowKind::Select),
            5 => Ok(RowKind::Update),
            6 => Ok(RowKind::Clone),
            7 => Ok(RowKind::Let),
            8 => Ok(RowKind::Method),
            _ => Err(UnknownKind(number)),
        }
    }
}

impl From<RowKind> for u8 {
    ghost from_gives = { λ kind number. number ≡ kind_number kind };

    fn from(kind: RowKind) -> u8 {
        kind as u8
    }
}

/// One row of a table. Fields that the kind does not use may hold anything.
#[derive(Clone, Copy, PartialEq, Eq, Debug, Default)]
pub struct Row {
    /// The number of a kind, or any other: rows come from outside, and the check refuses what is no kind.
    pub kind: u8,
    pub label: u16,
    pub number: i64,
}

impl Row {
    /// A row of this kind.
    pub fn new(kind: RowKind, label: u16, number: i64) -> Row
        ensures { result ≡ row (kind_number kind) label number }
    {
        Row {
            kind: kind.into(),
            label,
            number,
        }
    }
}
