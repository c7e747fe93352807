//! Plays the cases of cases.txt and prints what start and run answer.
//!
//! A case begins with `case CELLS FRAMES OBJECTS METHODS`, the lengths of its areas. Every other line is a word and numbers: an entry of
//! the code area (`list FIRST LEN MARK`, `method LABEL LIST`, an operation) or how much of it is used (`counts`); what is put in
//! by hand (`cell`, `cell-at`, `frame`, `make`, `at`, `holds`, `holds-at`, `report`); a given; a call (`start`, `run`, `pieces`, `objects`); or `#` and a title.
#![tactic(auto)]

mod areas;
mod calls;
mod case;
mod hands;
mod numbers;
mod saying;

use areas::{Area, entry_of};
use calculus::values::Value;
use calls::call_of;
use case::Case;
use flat_store::table::FlatStore;
use hands::hand_of;
use machine::machine::Machine;
use machine_model::state::{Cell, Frame};
use numbers::{fitted, numbers_of};
use std::{fs, io};
use store::closures::Method;
use store::layout::Span;
use store::store::Store;

/// Carries out a line.
fn obey<S: Store>(rt: &HostRuntime, case: &mut Case<'_, S>, line: &str) -> io::Result<()> {
    let name = line.split_whitespace().next().unwrap_or("");
    if name == "#" {
        return println!(rt; "{line}");
    }
    let numbers = numbers_of(line);
    if let Some(entry) = entry_of(name, numbers) {
        case.area.enter(entry)?;
    } else if let Some(hand) = hand_of(name, numbers) {
        case.put_in(hand);
    } else if let Some(call) = call_of(name, numbers) {
        case.make_call(rt, call)?;
    }
    Ok(())
}

/// The length of an area.
fn length(number: i64) -> usize {
    fitted::<u32>(number) as usize
}

/// Plays the lines of a case.
fn play(rt: &HostRuntime, block: &str) -> io::Result<()> {
    let heap = rt.alloc();
    let [cells, frames, objects, methods, ..] = numbers_of(block);
    let nothing = Cell {
        value: Value::Figure(0),
        parent: 0,
    };
    let mut cells = vec![in heap; nothing; length(cells)]?;
    let mut frames = vec![in heap; Frame::default(); length(frames)]?;
    let mut objects = vec![in heap; Span::default(); length(objects)]?;
    let mut methods = vec![in heap; Method::default(); length(methods)]?;
    let mut case = Case {
        area: Area::new(heap),
        machine: Machine::new(&mut cells, &mut frames),
        store: FlatStore::new(&mut objects, &mut methods),
    };
    for line in block.lines() {
        obey(rt, &mut case, line)?;
    }
    Ok(())
}

fn main(rt: HostRuntime) -> io::Result<()> {
    let text = fs::read_to_string(&rt, "cases.txt")?;
    for block in text.as_str().split("case ") {
        play(&rt, block)?;
    }
    Ok(())
}
