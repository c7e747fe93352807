//! The lists of a term, written into the tables in one descent.
ghost use Rattle.std.specs.Prelude.{◌≡◌, ◌<◌, ◌≤◌, map, length, drop};
ghost use Rattle.calculus.specs.Rows.{plain};
ghost use Rattle.calculus.specs.Kinds.{kind_number};
ghost use Rattle.compiler.specs.Fronts.{front};
ghost use Rattle.compiler.specs.Area.{area};
ghost use Rattle.compiler.specs.Emit.{small, leaf_of, follower_of, Ready, ReadyList, ReadyAll, Wrote, WroteList, WroteProgram, WroteAll};
ghost use Rattle.compiler.specs.Writing.{source, target, GoesOn};

use calculus::code::{Counts, ListEntry, MethodEntry, Operation, Tables};
use calculus::rows::{Row, RowKind};

/// A row's number, which the check has bounded.
fn plain_number(number: i64) -> u32
    ensures { result ≡ small number }
{
    match number {
        0..=1000 => number as u32,
        _ => 0,
    }
}

/// The kind of a row that the check has let through.
fn kind_of(row: Row) -> RowKind
    requires { (1 ≤ row.kind) × (row.kind ≤ 8) }
    ensures { kind_number result ≡ row.kind }
{
    RowKind::try_from(row.kind).unwrap()
}

/// The operation of a variable or a figure.
fn leaf(kind: RowKind, row: Row) -> Operation
    requires { kind_number kind ≡ row.kind }
    ensures { result ≡ leaf_of row }
{
    match kind {
        RowKind::Variable => Operation::Access(plain_number(row.number)),
        _ => Operation::Figure(row.number),
    }
}

/// The operation of a row that follows a head, where `list` is the number of its body's list.
fn follower(kind: RowKind, row: Row, list: u32) -> Operation
    requires { kind_number kind ≡ row.kind }
    ensures { result ≡ follower_of row list }
{
    match kind {
        RowKind::Select => Operation::Select(row.label),
        RowKind::Update => Operation::Update(row.label, list),
        RowKind::Clone => Operation::Clone,
        _ => Operation::Let(list),
    }
}

/// Rows on their way into the tables, with what is used of each table so far.
#[derive(Drop)]
struct Emission<'t, 'a> {
    tables: &'t mut Tables<'a>,
    counts: Counts,
    rows: &'t [Row],
}

impl Emission<'_, '_> {
    /// How many rows stand in front of the head row of the list that begins at `at`: those of the kinds from `Select` on.
    fn front_len(&self, at: usize) -> usize
        requires { at ≤ length self.now.rows.now }
        ensures { result ≡ front (drop at self.now.rows.now) }
    {
        self.rows[at..]
            .iter()
            .take_while(|row| row.kind >= RowKind::Select as u8)
            .count()
    }

    /// Writes the operations of the term at row `at`, the last of them at `slot`.
    #[cycle(emit_list_emit_methods_emit_term)]
    fn emit_term(&mut self, at: usize, slot: usize) -> usize
        requires { Ready (source self.old) at slot (target self.old) }
        ensures goes { GoesOn self.old self.new }
        ensures next { (at < result) × (result ≤ length self.old.rows.now) }
        ensures wrote { Wrote (source self.old) at slot result (target self.old) (target self.new) }
    {
        let row = self.rows[at];
        let kind = kind_of(row);
        match kind {
            RowKind::Variable | RowKind::Figure => {
                self.tables.operations[slot] = leaf(kind, row);
                at + 1
            }
            RowKind::Object => {
                let first = self.counts.methods;
                let count = plain_number(row.number);
                self.tables.operations[slot] = Operation::Object { first, count };
                self.counts.methods = first + count;
                self.emit_methods(at + 1, first, count)
            }
            RowKind::Select | RowKind::Clone => {
                let next = self.emit_term(at + 1, slot - 1);
                self.tables.operations[slot] = follower(kind, row, self.counts.contents);
                next
            }
            // An update or a let, since no method begins a term.
            _ => {
                let body = self.emit_term(at + 1, slot - 1);
                let list = self.counts.contents;
                self.tables.operations[slot] = follower(kind, row, list);
                self.emit_list(body, 0)
            }
        }
    }

    /// Writes the methods of an object, from row `from` on: their entries from `first` on, and their lists.
    #[cycle(emit_list_emit_methods_emit_term)]
    fn emit_methods(&mut self, from: usize, first: u32, count: u32) -> usize
        requires ready { ReadyAll (source self.old) from first count (target self.old) }
        requires within { from ≤ length self.old.rows.now }
        ensures goes { GoesOn self.old self.new }
        ensures next { (from ≤ result) × (result ≤ length self.old.rows.now) }
        ensures wrote { WroteAll (source self.old) from first count result (target self.old) (target self.new) }
    {
        let mut at = from;
        // By index, since the methods' lists go into the same tables between one entry and the next.
        for k in 0..count {
            let label = self.rows[at].label;
            self.tables.methods[(first + k) as usize] = MethodEntry {
                label,
                list: self.counts.contents,
            };
            at = self.emit_list(at + 1, 0);
        }
        at
    }

    /// Opens the next list, with this mark, for the term at row `at`, and writes it.
    #[cycle(emit_list_emit_methods_emit_term)]
    fn emit_list(&mut self, at: usize, mark: u32) -> usize
        requires { ReadyList (source self.old) at (target self.old) }
        ensures goes { GoesOn self.old self.new }
        ensures next { (at < result) × (result ≤ length self.old.rows.now) }
        ensures wrote { WroteList (source self.old) at mark result (target self.old) (target self.new) }
    {
        let spine = self.front_len(at);
        let first = self.counts.operations;
        let n = self.counts.contents;
        self.tables.contents[n as usize] = ListEntry {
            first,
            len: spine as u32 + 1,
            mark,
        };
        self.counts.contents = n + 1;
        self.counts.operations = first + spine as u32 + 1;
        self.emit_term(at, first as usize + spine)
    }
}

/// Writes the lists of a checked term behind what is used of the tables, its main list with this mark: what is used then.
pub(crate) fn emit(tables: &mut Tables<'_>, used: Counts, rows: &[Row], mark: u32) -> Counts
    requires { ReadyList (map plain rows.now) 0 (area tables.old used) }
    ensures { WroteProgram (map plain rows.now) mark (area tables.old used) (area tables.new result) }
{
    let mut emission = Emission {
        tables,
        counts: used,
        rows,
    };
    let _end = emission.emit_list(0, mark);
    emission.counts
}
