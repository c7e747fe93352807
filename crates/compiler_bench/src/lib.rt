//! What the benchmark of compile and list_back calls from outside.
#![tactic(auto)]

use calculus::code::{CodeArea, Counts, ListEntry, MethodEntry, Operation, Tables};
use calculus::rows::{Row, RowKind};
use compiler::compile;
use listing::list_back;
use listing::pending::Pending;
use std::alloc::{AllocError, Global};

/// Lets in lets, this high on both sides: two to the power of `height` and one, less one, rows; no more than 100,000.
pub fn lets(heap: Global, height: u32) -> Result<Vec<Row>, AllocError> {
    let mut rows = Vec::new(heap);
    let mut heights = vec![in heap; height]?;
    for _ in 0..100_000 {
        let kind = match heights.pop() {
            None => break,
            Some(0) => RowKind::Figure,
            Some(more) => {
                heights.push(more - 1)?;
                heights.push(more - 1)?;
                RowKind::Let
            }
        };
        rows.push(Row::new(kind, 0, 7))?;
    }
    Ok(rows)
}

/// Compiles the lets of this height, and lists them back, so many times each: how many rows came back in all.
fn rounds(heap: Global, height: u32, compiles: u32, lists: u32) -> Result<u64, AllocError> {
    let table = lets(heap, height)?;
    let mut contents = vec![in heap; ListEntry::default(); 40000]?;
    let mut operations = vec![in heap; Operation::Clone; 70000]?;
    let mut methods = vec![in heap; MethodEntry::default(); 1]?;
    let mut rows = vec![in heap; Row::default(); 70000]?;
    let mut stack = vec![in heap; Pending::default(); 200]?;
    let mut area = CodeArea::new(Tables {
        contents: &mut contents,
        operations: &mut operations,
        methods: &mut methods,
    });
    let _ = compile(&table, 0, &mut area);
    for _ in 0..compiles {
        area.counts = Counts::default();
        let _ = compile(&table, 0, &mut area);
    }
    let mut total = 0u64;
    for _ in 0..lists {
        if let Ok(len) = list_back(0, &area, &mut rows, &mut stack) {
            total = total.wrapping_add(u64::from(len));
        }
    }
    Ok(total)
}

/// The same for a caller outside; 0 where there was no memory.
pub fn compiler_rounds(heap: Global, height: u32, compiles: u32, lists: u32) -> u64 {
    rounds(heap, height, compiles, lists).unwrap_or(0)
}
