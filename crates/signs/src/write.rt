//! Rows and values as text.
ghost use Rattle.std.specs.Prelude.{Some};
ghost use Rattle.signs.specs.Laws.{ReadAgain};
ghost use Rattle.signs.specs.Writing.{row_text, value_text};

use calculus::rows::{Row, RowKind};
use calculus::values::Value;
use std::fmt;

/// A row or a value to be written. How a script writes it is no matter of the calculus, so the types themselves have no text.
#[derive(Clone, Copy)]
pub struct Text<T>(pub T);

impl fmt::Display for Text<Row> {
    ghost output = { λ t. Some (row_text t.0) };

    fn fmt<W: fmt::Write>(&self, f: &mut fmt::Formatter<W>) -> fmt::Result {
        let Row {
            kind,
            label,
            number,
        } = self.0;
        match RowKind::try_from(kind) {
            Ok(RowKind::Variable) => write!(f, "V{number}"),
            Ok(RowKind::Figure) => write!(f, "F{number}"),
            Ok(RowKind::Object) => write!(f, "O{number}"),
            Ok(RowKind::Select) => write!(f, "S{label}"),
            Ok(RowKind::Update) => write!(f, "U{label}"),
            Ok(RowKind::Clone) => write!(f, "C"),
            Ok(RowKind::Let) => write!(f, "L"),
            Ok(RowKind::Method) => write!(f, "M{label}"),
            Err(_) => write!(f, "{kind}/{label}/{number}"),
        }
    }
}

impl fmt::Display for Text<Value> {
    ghost output = { λ t. Some (value_text t.0) };

    fn fmt<W: fmt::Write>(&self, f: &mut fmt::Formatter<W>) -> fmt::Result {
        match self.0 {
            Value::Figure(figure) => write!(f, "{figure}"),
            Value::Location(location) => write!(f, "@{location}"),
        }
    }
}

/// The law of signs: a row or a value that is written is read again.
pub fn signs_read_again()
    ensures { ReadAgain }
{}
