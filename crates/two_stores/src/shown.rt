//! What a store answers and holds, in print.
ghost use Rattle.std.specs.Prelude.{◌≤◌};

use crate::calls::table;
use crate::junk::over_junk;
use std::io;
use store::closures::Method;
use store::faults::StoreFault;
use store::store::Store;
use store_laws::runs::{StoreAnswer, StoreCall, perform_all};

fn print_method(rt: &HostRuntime, method: Method) -> io::Result<()> {
    let label = method.label;
    let list = method.closure.list;
    let env = method.closure.env;
    print!(rt; " {label}={list}/{env}")
}

// Each method as its label, list and environment; of many methods the first and the last.
fn print_object<S: Store>(rt: &HostRuntime, store: &S, location: u32, size: u32) -> io::Result<()> {
    print!(rt; "    {location}:")?;
    for place in 0..size {
        if size > 4 && place > 0 && place + 1 < size {
            continue;
        }
        if let Ok(method) = store.method_at(location, place) {
            print_method(rt, method)?;
        }
    }
    println!(rt; " ({size})")
}

fn print_answer(rt: &HostRuntime, answer: Result<StoreAnswer, StoreFault>) -> io::Result<()> {
    match answer {
        Ok(StoreAnswer::Number(n)) => print!(rt; " {n},"),
        Ok(StoreAnswer::Method(method)) => {
            print_method(rt, method)?;
            print!(rt; ",")
        }
        Ok(StoreAnswer::Place(Some(place))) => print!(rt; " place {place},"),
        Ok(StoreAnswer::Place(None)) => print!(rt; " no such label,"),
        Ok(StoreAnswer::Location(location)) => print!(rt; " location {location},"),
        Ok(StoreAnswer::Updated) => print!(rt; " updated,"),
        Err(fault) => {
            let number = fault.number();
            print!(rt; " refused {number},")
        }
    }
}

fn print_run<S: Store>(rt: &HostRuntime, store: &mut S, calls: &[StoreCall]) -> io::Result<()> {
    let mut answers = [Ok(StoreAnswer::Updated); 32];
    let made = perform_all(store, &table(), calls, &mut answers);
    print!(rt; "   ")?;
    for answer in &answers[..made] {
        print_answer(rt, *answer)?;
    }
    println!(rt; " {made} answers")?;
    for location in 0..store.object_count() {
        if let Ok(size) = store.size(location) {
            print_object(rt, store, location, size)?;
        }
    }
    Ok(())
}

/// Runs the calls on a new store of each kind, over areas of these lengths, and prints the answers and the objects.
pub fn both<const OBJECTS: usize, const METHODS: usize>(
    rt: &HostRuntime,
    calls: &[StoreCall],
) -> io::Result<()>
    requires objects { OBJECTS ≤ 400 }
    requires methods { METHODS ≤ 1600 }
{
    over_junk::<OBJECTS, METHODS, _, _>(|flat, sharing| {
        println!(rt; "  flat")?;
        print_run(rt, flat, calls)?;
        println!(rt; "  sharing")?;
        print_run(rt, sharing, calls)
    })
}
