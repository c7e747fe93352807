//! Operations as text.
ghost use Rattle.std.specs.Prelude.{Some};
ghost use Rattle.answers.specs.Texts.{operation_text, method_text};

use crate::answers::Text;
use calculus::code::{MethodEntry, Operation};
use std::fmt;

/// The methods of an object follow its operation one by one.
impl fmt::Display for Text<Operation> {
    ghost output = { λ t. Some (operation_text t.0) };

    fn fmt<W: fmt::Write>(&self, f: &mut fmt::Formatter<W>) -> fmt::Result {
        match self.0 {
            Operation::Access(index) => write!(f, "access {index}"),
            Operation::Figure(figure) => write!(f, "figure {figure}"),
            Operation::Object { .. } => write!(f, "object"),
            Operation::Select(label) => write!(f, "select {label}"),
            Operation::Update(label, list) => write!(f, "update {label} {list}"),
            Operation::Clone => write!(f, "clone"),
            Operation::Let(list) => write!(f, "let {list}"),
        }
    }
}

/// A method of an object operation, with the blank before it.
impl fmt::Display for Text<MethodEntry> {
    ghost output = { λ t. Some (method_text t.0) };

    fn fmt<W: fmt::Write>(&self, f: &mut fmt::Formatter<W>) -> fmt::Result {
        let MethodEntry { label, list } = self.0;
        write!(f, " {label}:{list}")
    }
}
