//! The code area of a case, entry by entry.
use crate::numbers::fitted;
use calculus::code::{CodeArea, Counts, ListEntry, MethodEntry, Operation, Tables};
use calculus::values::Value;
use std::alloc::{AllocError, Global};

/// What a line of the area says.
#[derive(Clone, Copy)]
pub enum Entry {
    List(ListEntry),
    Method(MethodEntry),
    Operation(Operation),
    /// How much of the tables is used.
    Counts(Counts),
    Given(Value),
    NoGivens,
}

/// What a line says, if it is one of the area's.
pub fn entry_of(name: &str, numbers: [i64; 6]) -> Option<Entry> {
    let [first, second, third, ..] = numbers;
    let entry = match name {
        "list" => Entry::List(ListEntry {
            first: fitted(first),
            len: fitted(second),
            mark: fitted(third),
        }),
        "method" => Entry::Method(MethodEntry {
            label: fitted(first),
            list: fitted(second),
        }),
        "counts" => Entry::Counts(Counts {
            contents: fitted(first),
            operations: fitted(second),
            methods: fitted(third),
        }),
        "given" => Entry::Given(Value::Figure(first)),
        "given-at" => Entry::Given(Value::Location(fitted(first))),
        "no-givens" => Entry::NoGivens,
        _ => Entry::Operation(operation(name, first, second)?),
    };
    Some(entry)
}

/// The operation that a word names.
fn operation(name: &str, first: i64, second: i64) -> Option<Operation> {
    match name {
        "access" => Some(Operation::Access(fitted(first))),
        "figure" => Some(Operation::Figure(first)),
        "object" => Some(Operation::Object {
            first: fitted(first),
            count: fitted(second),
        }),
        "select" => Some(Operation::Select(fitted(first))),
        "update" => Some(Operation::Update(fitted(first), fitted(second))),
        "clone" => Some(Operation::Clone),
        "let" => Some(Operation::Let(fitted(first))),
        _ => None,
    }
}

/// The tables, how much of them is used, and the givens of the next start.
#[derive(Drop)]
pub struct Area {
    contents: Vec<ListEntry>,
    operations: Vec<Operation>,
    methods: Vec<MethodEntry>,
    used: Counts,
    givens: Vec<Value>,
}

impl Area {
    pub fn new(heap: Global) -> Area {
        Area {
            contents: Vec::new(heap),
            operations: Vec::new(heap),
            methods: Vec::new(heap),
            used: Counts::default(),
            givens: Vec::new(heap),
        }
    }

    /// Enters what a line says.
    pub fn enter(&mut self, entry: Entry) -> Result<(), AllocError> {
        match entry {
            Entry::List(list) => {
                self.contents.push(list)?;
                self.used.contents = self.used.contents.saturating_add(1);
            }
            Entry::Method(method) => {
                self.methods.push(method)?;
                self.used.methods = self.used.methods.saturating_add(1);
            }
            Entry::Operation(operation) => {
                self.operations.push(operation)?;
                self.used.operations = self.used.operations.saturating_add(1);
            }
            Entry::Counts(used) => self.used = used,
            Entry::Given(value) => self.givens.push(value)?,
            Entry::NoGivens => self.givens.clear(),
        }
        Ok(())
    }

    /// The area as it is lent to a machine, and the givens.
    pub fn lent(&mut self) -> (CodeArea<'_>, &[Value]) {
        let counts = self.used;
        let tables = Tables {
            contents: &mut self.contents,
            operations: &mut self.operations,
            methods: &mut self.methods,
        };
        let area = CodeArea { tables, counts };
        (area, &self.givens)
    }
}
