//! Tables of rows, read from text or made at random.
use crate::word::Word;
use calculus::rows::{Row, RowKind};
use compiler_bench::lets;
use std::alloc::{AllocError, Global};

/// The field that a kind uses.
enum Field {
    Label,
    Number,
}

/// The field that a kind uses, if it uses one.
fn field_of(kind: RowKind) -> Option<Field> {
    match kind {
        RowKind::Select | RowKind::Update | RowKind::Method => Some(Field::Label),
        RowKind::Variable | RowKind::Figure | RowKind::Object => Some(Field::Number),
        RowKind::Clone | RowKind::Let => None,
    }
}

/// A row of a kind, with a value in the field that the kind uses.
pub(crate) fn row(kind: RowKind, value: u16) -> Row {
    match field_of(kind) {
        Some(Field::Label) => Row::new(kind, value, 0),
        Some(Field::Number) => Row::new(kind, 0, i64::from(value)),
        None => Row::new(kind, 0, 0),
    }
}

/// The row with 0 in each field that its kind does not use.
pub(crate) fn plain(given: Row) -> Row {
    match RowKind::try_from(given.kind).ok().and_then(field_of) {
        Some(Field::Label) => Row { number: 0, ..given },
        Some(Field::Number) => Row { label: 0, ..given },
        None => Row {
            label: 0,
            number: 0,
            ..given
        },
    }
}

/// The kind that a letter stands for.
fn kind_of(letter: u8) -> Option<RowKind> {
    match letter {
        b'V' => Some(RowKind::Variable),
        b'F' => Some(RowKind::Figure),
        b'O' => Some(RowKind::Object),
        b'S' => Some(RowKind::Select),
        b'U' => Some(RowKind::Update),
        b'C' => Some(RowKind::Clone),
        b'L' => Some(RowKind::Let),
        b'M' => Some(RowKind::Method),
        _ => None,
    }
}

/// A row of no kind.
const STRANGE: Row = Row {
    kind: 9,
    label: 0,
    number: 0,
};

/// The row that a word names, as `S7`: a letter for the kind, and the number or label that it uses.
fn row_in(word: Word) -> Row {
    match word.letter.and_then(kind_of) {
        Some(kind) => row(kind, (word.number % 65536) as u16),
        None => STRANGE,
    }
}

/// The rows that words name.
pub(crate) fn rows_in(heap: Global, words: &[Word]) -> Result<Vec<Row>, AllocError> {
    words.iter().map(|word| row_in(*word)).collect(heap)
}

/// `depth` clones around a figure.
pub(crate) fn clones(heap: Global, depth: u32) -> Result<Vec<Row>, AllocError> {
    let mut rows = vec![in heap; row(RowKind::Clone, 0); depth as usize]?;
    rows.push(row(RowKind::Figure, 0))?;
    Ok(rows)
}

/// Lets of this height on both sides, and a row more.
pub(crate) fn one_more(heap: Global, height: u32) -> Result<Vec<Row>, AllocError> {
    let mut rows = lets(heap, height)?;
    rows.push(row(RowKind::Figure, 0))?;
    Ok(rows)
}

/// An object of this many methods.
pub(crate) fn object(heap: Global, methods: u32) -> Result<Vec<Row>, AllocError> {
    let count = (methods % 65536) as u16;
    let mut rows = vec![in heap; row(RowKind::Object, count)]?;
    for label in 0..count {
        rows.push(row(RowKind::Method, label))?;
        rows.push(row(RowKind::Variable, 1))?;
    }
    Ok(rows)
}

/// Numbers that look random, and are the same at each run.
#[derive(Drop)]
pub(crate) struct Random {
    state: u64,
}

impl Random {
    pub(crate) fn new() -> Random {
        Random { state: 1 }
    }

    /// The next number, from 0 to 65,535.
    fn number(&mut self) -> u16 {
        self.state = self
            .state
            .wrapping_mul(6_364_136_223_846_793_005)
            .wrapping_add(1_442_695_040_888_963_407);
        (self.state / 281_474_976_710_656) as u16
    }

    /// The next number below `end`, where there is one.
    fn below(&mut self, end: u16) -> u16 {
        self.number().checked_rem(end).unwrap_or(0)
    }
}

/// What is still to be made of a table.
#[derive(Clone, Copy)]
enum Want {
    Term { depth: u16, scope: u16 },
    Method { label: u16, depth: u16, scope: u16 },
}

/// Puts what the kind does not use into the unused fields of a row.
fn strewn(random: &mut Random, given: Row) -> Row {
    match RowKind::try_from(given.kind).ok().and_then(field_of) {
        Some(Field::Label) => Row {
            number: i64::from(random.number()) - 30_000,
            ..given
        },
        Some(Field::Number) => Row {
            label: random.number(),
            ..given
        },
        None => Row {
            label: random.number(),
            number: i64::from(random.number()),
            ..given
        },
    }
}

/// Makes the first row of a term, and adds the parts that it has to what is wanted, the first of them last.
fn grow(
    random: &mut Random,
    wants: &mut Vec<Want>,
    depth: u16,
    scope: u16,
) -> Result<Row, AllocError> {
    let deeper = depth.wrapping_add(1);
    let inside = scope.wrapping_add(1);
    let receiver = Want::Term {
        depth: deeper,
        scope,
    };
    let body = Want::Term {
        depth: deeper,
        scope: inside,
    };
    match random.below(6) {
        0 => {
            wants.push(receiver)?;
            Ok(row(RowKind::Select, random.below(9)))
        }
        1 => {
            wants.push(receiver)?;
            Ok(row(RowKind::Clone, 0))
        }
        2 => {
            wants.push(body)?;
            wants.push(receiver)?;
            Ok(row(RowKind::Update, random.below(9)))
        }
        3 => {
            wants.push(body)?;
            wants.push(receiver)?;
            Ok(row(RowKind::Let, 0))
        }
        _ => {
            let methods = random.below(5);
            for label in 0..methods {
                wants.push(Want::Method {
                    label,
                    depth: deeper,
                    scope,
                })?;
            }
            Ok(row(RowKind::Object, methods))
        }
    }
}

/// A variable, or a figure.
fn leaf(random: &mut Random, scope: u16) -> Row {
    if scope > 0 && random.below(2) == 0 {
        row(RowKind::Variable, random.below(scope).wrapping_add(1))
    } else {
        row(RowKind::Figure, random.number())
    }
}

/// A table of a term with givens, of some more than `size` rows at most, its unused fields strewn with numbers.
pub(crate) fn random_rows(
    heap: Global,
    random: &mut Random,
    givens: u16,
    size: usize,
) -> Result<Vec<Row>, AllocError> {
    let mut rows = Vec::new(heap);
    let first = Want::Term {
        depth: 1,
        scope: givens,
    };
    let mut wants = vec![in heap; first]?;
    for made in 0..2000usize {
        let next = match wants.pop() {
            None => break,
            Some(
                Want::Method {
                    label,
                    depth,
                    scope,
                },
            ) => {
                wants.push(Want::Term {
                    depth: depth.wrapping_add(1),
                    scope: scope.wrapping_add(1),
                })?;
                row(RowKind::Method, label)
            }
            Some(Want::Term { depth, scope }) => {
                if depth < 150 && made < size {
                    grow(random, &mut wants, depth, scope)?
                } else {
                    leaf(random, scope)
                }
            }
        };
        rows.push(strewn(random, next))?;
    }
    Ok(rows)
}
