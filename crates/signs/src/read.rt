//! Words as rows and values.
ghost use Rattle.std.specs.Prelude.{◌≡◌, Some, None, MatchOption, position};
ghost use Rattle.calculus.specs.Kinds.{kind_number};
ghost use Rattle.signs.specs.Reading.{numbered_in, labelled_in, bare_in, is_stroke, cut, fields_in, spelled_in, row_in, value_in};

use calculus::rows::{Row, RowKind};
use calculus::values::Value;
use words::numbers::{integer, natural_8, natural_16, natural_32};

/// A row of this kind whose field is its number.
fn numbered(kind: RowKind, field: &[u8]) -> Option<Row>
    ensures { result ≡ numbered_in (kind_number kind) field.now }
{
    Some(Row::new(kind, 0, integer(field)?))
}

/// A row of this kind whose field is its label.
fn labelled(kind: RowKind, field: &[u8]) -> Option<Row>
    ensures { result ≡ labelled_in (kind_number kind) field.now }
{
    Some(Row::new(kind, natural_16(field)?, 0))
}

/// A row of this kind, which has no field.
fn bare(kind: RowKind, field: &[u8]) -> Option<Row>
    ensures { result ≡ bare_in (kind_number kind) field.now }
{
    field.is_empty().then(|| Row::new(kind, 0, 0))
}

/// Where the first stroke stands, if there is one.
fn stroke(word: &[u8]) -> Option<usize>
    ensures { result ≡ position is_stroke word.now }
{
    word.iter().position(|byte| *byte == b'/')
}

/// What stands before the first stroke, and behind it, if there is one.
fn cut(word: &[u8]) -> Option<(&[u8], &[u8])>
    ensures { MatchOption result
        (cut word.now ≡ None)
        (λ p. cut word.now ≡ Some (p.0.now, p.1.now)) }
{
    let at = stroke(word)?;
    Some((&word[..at], &word[at + 1..]))
}

/// A row of these fields.
fn row_of(kind: &[u8], label: &[u8], number: &[u8]) -> Option<Row>
    ensures { result ≡ fields_in kind.now label.now number.now }
{
    Some(Row {
        kind: natural_8(kind)?,
        label: natural_16(label)?,
        number: integer(number)?,
    })
}

/// `KIND/LABEL/NUMBER`: any row at all.
fn spelled_out(word: &[u8]) -> Option<Row>
    ensures { result ≡ spelled_in word.now }
{
    let (kind, rest) = cut(word)?;
    let (label, number) = cut(rest)?;
    row_of(kind, label, number)
}

/// A row: a sign with its field, or spelled out.
#[tactic(auto, using(crate::proofs::Fields::headed))]
pub fn read_row(word: &[u8]) -> Option<Row>
    ensures { result ≡ row_in word.now }
{
    match word {
        [b'V', field @ ..] => numbered(RowKind::Variable, field),
        [b'F', field @ ..] => numbered(RowKind::Figure, field),
        [b'O', field @ ..] => numbered(RowKind::Object, field),
        [b'S', field @ ..] => labelled(RowKind::Select, field),
        [b'U', field @ ..] => labelled(RowKind::Update, field),
        [b'C', field @ ..] => bare(RowKind::Clone, field),
        [b'L', field @ ..] => bare(RowKind::Let, field),
        [b'M', field @ ..] => labelled(RowKind::Method, field),
        _ => spelled_out(word),
    }
}

/// A value: a figure, or `@` and a location.
#[tactic(auto, using(crate::proofs::Fields::headed))]
pub fn read_value(word: &[u8]) -> Option<Value>
    ensures { result ≡ value_in word.now }
{
    match word {
        [b'@', location @ ..] => Some(Value::Location(natural_32(location)?)),
        _ => Some(Value::Figure(integer(word)?)),
    }
}
