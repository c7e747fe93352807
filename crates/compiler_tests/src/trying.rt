//! What is tried.
ghost use Rattle.std.specs.Prelude.{◌≡◌, ℕ, ◌≤◌, map, length, Ok};
ghost use Rattle.calculus.specs.Held.{counted};
ghost use Rattle.calculus.specs.Rows.{plain as plain_row};
ghost use Rattle.compiler.specs.Compile.{answer};
ghost use Rattle.listing.specs.Back.{Gave};

use crate::making::{Random, plain, random_rows};
use crate::showing::{Shown, show_code, show_rows};
use calculus::code::{CodeArea, Counts, ListEntry, MethodEntry, Operation, Tables};
use calculus::refusals::Refusal;
use calculus::rows::Row;
use compiler::compile;
use listing::list_back;
use listing::pending::Pending;
use std::alloc::Global;
use std::io;

/// Stores an entry at a place of a table, if the table has it.
fn store<T: Copy>(table: &mut [T], place: u32, entry: T) {
    if let Some(slot) = table.get_mut(place as usize) {
        *slot = entry;
    }
}

/// A code area of its own.
#[derive(Drop)]
pub(crate) struct Space {
    contents: Vec<ListEntry>,
    operations: Vec<Operation>,
    methods: Vec<MethodEntry>,
    pub(crate) counts: Counts,
}

impl Space {
    pub(crate) fn new(heap: Global) -> Space {
        Space {
            contents: Vec::new(heap),
            operations: Vec::new(heap),
            methods: Vec::new(heap),
            counts: Counts::default(),
        }
    }

    /// The area, lent.
    fn area(&mut self) -> CodeArea<'_> {
        let counts = self.counts;
        CodeArea {
            tables: Tables {
                contents: &mut self.contents,
                operations: &mut self.operations,
                methods: &mut self.methods,
            },
            counts,
        }
    }

    /// `tables C O M`: tables of these lengths, none of them used.
    pub(crate) fn resize(
        &mut self,
        heap: Global,
        contents: u32,
        operations: u32,
        methods: u32,
    ) -> io::Result<()> {
        self.contents = vec![in heap; ListEntry::default(); contents as usize]?;
        self.operations = vec![in heap; Operation::Clone; operations as usize]?;
        self.methods = vec![in heap; MethodEntry::default(); methods as usize]?;
        self.counts = Counts::default();
        Ok(())
    }

    /// `list I F L M`: stores an entry at place I.
    pub(crate) fn store_list(&mut self, place: u32, list: ListEntry) {
        store(&mut self.contents, place, list);
    }

    /// `operation I X N`: stores an operation at place I.
    pub(crate) fn store_operation(&mut self, place: u32, operation: Operation) {
        store(&mut self.operations, place, operation);
    }

    /// `method I L N`: stores a method's entry at place I.
    pub(crate) fn store_method(&mut self, place: u32, method: MethodEntry) {
        store(&mut self.methods, place, method);
    }

    /// `compile G ROWS`: compiles the rows with G givens.
    pub(crate) fn compile(
        &mut self,
        rt: &HostRuntime,
        rows: &[Row],
        givens: u32,
    ) -> io::Result<()> {
        let mut area = self.area();
        let answer = compile(rows, givens, &mut area);
        let counts = area.counts;
        self.counts = counts;
        match answer {
            Ok(program) => println!(rt; "program {program}, {}", Shown(counts)),
            Err(refusal) => println!(rt; "{}, {}", Shown(refusal), Shown(counts)),
        }
    }

    /// `back N R L`: lists program N back, with room for R rows and L pending lists.
    pub(crate) fn back(
        &mut self,
        rt: &HostRuntime,
        program: u32,
        rows: u32,
        lists: u32,
    ) -> io::Result<()> {
        let heap = rt.alloc();
        let mut rows = vec![in heap; Row::default(); rows as usize]?;
        let mut stack = vec![in heap; Pending::default(); lists as usize]?;
        match list_back(program, &self.area(), &mut rows, &mut stack) {
            Ok(len) => show_rows(rt, &rows[..len as usize]),
            Err(refusal) => println!(rt; "{}", Shown(refusal)),
        }
    }

    /// `show`: every list that is used, with its operations, and then the method entries.
    pub(crate) fn show(&mut self, rt: &HostRuntime) -> io::Result<()> {
        match self.area().used() {
            None => println!(rt; "counts past the tables"),
            Some(code) => show_code(rt, &code),
        }
    }
}

/// Compiles the rows and lists the program back: how many rows came back.
fn there_and_back(
    rows: &[Row],
    givens: u32,
    area: &mut CodeArea<'_>,
    back: &mut [Row],
    stack: &mut [Pending],
) -> Result<u32, Refusal>
    // whatever the tables hold, rows that are accepted come back as they were, unused fields zero
    ensures { (n : ℕ) →
        answer rows.now givens area.old.tables area.old.counts ≡ Ok n →
        length rows.now ≤ counted (length back.old) →
        200 ≤ counted (length stack.old) →
        Gave (map plain_row rows.now) result back.old back.new }
{
    let program = compile(rows, givens, area)?;
    list_back(program, area, back, stack)
}

/// Whether the first rows that came back are these, with 0 in the fields that are not used.
fn came_back(rows: &[Row], back: &[Row], len: u32) -> bool {
    back.iter()
        .take(len as usize)
        .copied()
        .eq(rows.iter().map(|row| plain(*row)))
}

/// Compiles a table and lists it back: how many rows came back, and whether they are the same.
fn round(heap: Global, rows: &[Row], givens: u32) -> io::Result<Result<(u32, bool), Refusal>> {
    let count = rows.len();
    let mut contents = vec![in heap; ListEntry::default(); count]?;
    let mut operations = vec![in heap; Operation::Clone; count]?;
    let mut methods = vec![in heap; MethodEntry::default(); count]?;
    let mut back = vec![in heap; Row::default(); count]?;
    let mut stack = vec![in heap; Pending::default(); 200]?;
    let mut area = CodeArea::new(Tables {
        contents: &mut contents,
        operations: &mut operations,
        methods: &mut methods,
    });
    let answer = there_and_back(rows, givens, &mut area, &mut back, &mut stack);
    Ok(answer.map(|len| (len, came_back(rows, &back, len))))
}

/// `deep K`, `wide K`, `high K`: K clones, an object of K methods, lets K high on both sides, compiled and listed back in areas as long as the table;
/// `extra K`: the last with one row more.
pub(crate) fn large(rt: &HostRuntime, rows: &[Row]) -> io::Result<()> {
    let count = rows.len();
    match round(rt.alloc(), rows, 0)? {
        Ok((len, equal)) => println!(rt; "{count} rows, {len} came back, equal: {equal}"),
        Err(refusal) => println!(rt; "{count} rows, {}", Shown(refusal)),
    }
}

/// `random N`: N tables made at random, compiled and listed back.
pub(crate) fn many(rt: &HostRuntime, tables: u32) -> io::Result<()> {
    let mut random = Random::new();
    let mut equal = 0u32;
    let mut most = 0usize;
    for number in 0..tables {
        let givens = (number % 17) as u16;
        let rows = random_rows(rt.alloc(), &mut random, givens, 300)?;
        if let Ok((_, true)) = round(rt.alloc(), &rows, u32::from(givens))? {
            equal = equal.wrapping_add(1);
        }
        most = most.max(rows.len());
    }
    println!(rt; "{equal} of {tables} came back as they were, the longest of {most} rows")
}
