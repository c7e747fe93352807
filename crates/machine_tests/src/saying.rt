//! Answers as text.
use answers::answers::Text;
use calculus::refusals::Refusal;
use machine_model::answers::{Fault, RunAnswer};
use std::io;
use store::store::Store;

/// The store's fault inside.
fn say_inside(rt: &HostRuntime, fault: Fault) -> io::Result<()> {
    match fault {
        Fault::Store(inside) => {
            let number = inside.number();
            print!(rt; ", by the store's {number}")
        }
        _ => Ok(()),
    }
}

pub fn say_run(rt: &HostRuntime, answer: RunAnswer) -> io::Result<()> {
    match answer {
        RunAnswer::NotRunning => println!(rt; "  18"),
        RunAnswer::Done { value, report } => {
            let value = signs::write::Text(value);
            let report = Text(report);
            println!(rt; "  done {value}, {report}")
        }
        RunAnswer::Paused { report } => {
            let report = Text(report);
            println!(rt; "  paused, {report}")
        }
        RunAnswer::Refused {
            fault,
            place,
            report,
        } => {
            let number = fault.number();
            let place = Text(place);
            let report = Text(report);
            print!(rt; "  {number} at {place}")?;
            say_inside(rt, fault)?;
            println!(rt; ", {report}")
        }
    }
}

pub fn say_start(rt: &HostRuntime, answer: Result<(), Refusal>) -> io::Result<()> {
    match answer {
        Ok(()) => println!(rt; "  started"),
        Err(refusal) => {
            let number = refusal.number();
            let place = Text(refusal.place());
            println!(rt; "  {number} at {place}")
        }
    }
}

/// The methods of an object.
fn say_object<S: Store>(rt: &HostRuntime, store: &S, location: u32) -> io::Result<()> {
    print!(rt; "  object {location}:")?;
    for place in 0..store.size(location).unwrap_or(0) {
        if let Ok(method) = store.method_at(location, place) {
            let label = method.label;
            let list = method.closure.list;
            let env = method.closure.env;
            print!(rt; " {label}=list {list} over {env}")?;
        }
    }
    println!(rt; "")
}

pub fn say_objects<S: Store>(rt: &HostRuntime, store: &S) -> io::Result<()> {
    for location in 0..store.object_count() {
        say_object(rt, store, location)?;
    }
    Ok(())
}
