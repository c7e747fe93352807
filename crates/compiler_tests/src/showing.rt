//! Tables, rows and refusals as text.
use calculus::code::{Code, Counts, ListEntry, Operation};
use calculus::refusals::{Place, Refusal};
use calculus::rows::{Row, RowKind};
use signs::write::Text;
use std::{fmt, io};

/// A value as the output shows it, which is not as a script does.
#[derive(Clone, Copy)]
pub(crate) struct Shown<T>(pub(crate) T);

impl fmt::Display for Shown<Refusal> {
    fn fmt<W: fmt::Write>(&self, f: &mut fmt::Formatter<W>) -> fmt::Result {
        let number = self.0.number();
        match self.0.place() {
            Place::Whole => write!(f, "refused {number}"),
            Place::Row(row) => write!(f, "refused {number} at row {row}"),
            Place::Operation { list, operation } => {
                write!(f, "refused {number} at list {list} operation {operation}")
            }
        }
    }
}

impl fmt::Display for Shown<Counts> {
    fn fmt<W: fmt::Write>(&self, f: &mut fmt::Formatter<W>) -> fmt::Result {
        let Counts {
            contents,
            operations,
            methods,
        } = self.0;
        write!(f, "used {contents} {operations} {methods}")
    }
}

impl fmt::Display for Shown<Row> {
    fn fmt<W: fmt::Write>(&self, f: &mut fmt::Formatter<W>) -> fmt::Result {
        match RowKind::try_from(self.0.kind) {
            Ok(_) => write!(f, "{}", Text(self.0)),
            Err(_) => write!(f, "?"),
        }
    }
}

impl fmt::Display for Shown<Operation> {
    fn fmt<W: fmt::Write>(&self, f: &mut fmt::Formatter<W>) -> fmt::Result {
        match self.0 {
            Operation::Access(index) => write!(f, "access {index}"),
            Operation::Figure(figure) => write!(f, "figure {figure}"),
            Operation::Object { first, count } => write!(f, "object {first} {count}"),
            Operation::Select(label) => write!(f, "select {label}"),
            Operation::Update(label, list) => write!(f, "update {label} {list}"),
            Operation::Clone => write!(f, "clone"),
            Operation::Let(list) => write!(f, "let {list}"),
        }
    }
}

/// The rows that came back.
pub(crate) fn show_rows(rt: &HostRuntime, rows: &[Row]) -> io::Result<()> {
    print!(rt; "{} rows:", rows.len())?;
    for row in rows {
        print!(rt; " {}", Shown(*row))?;
    }
    println!(rt; "")
}

fn show_list(
    rt: &HostRuntime,
    number: usize,
    entry: ListEntry,
    operations: &[Operation],
) -> io::Result<()> {
    print!(rt; "list {number}, mark {}:", entry.mark)?;
    // by place: an entry made by hand may name more operations than there are
    for place in 0..entry.len {
        match operations.get(entry.first as usize + place as usize) {
            Some(operation) => print!(rt; " {},", Shown(*operation))?,
            None => print!(rt; " nothing,")?,
        }
    }
    println!(rt; "")
}

/// Every list, with its operations, and then the method entries.
pub(crate) fn show_code(rt: &HostRuntime, code: &Code<'_>) -> io::Result<()> {
    for (number, entry) in code.contents.iter().enumerate() {
        show_list(rt, number, *entry, code.operations)?;
    }
    print!(rt; "methods:")?;
    for entry in code.methods {
        print!(rt; " {} {},", entry.label, entry.list)?;
    }
    println!(rt; "")
}
