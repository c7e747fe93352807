//! Updates tried on a few objects, and put back; the same updates again, and kept.
#![tactic(auto)]

use calculus::code::MethodEntry;
use flat_store::table::FlatStore;
use std::io;
use store::closures::{Closure, Method};
use store::layout::Span;
use store::store::Store;
use trial_layer::faults::TrialFault;
use trial_layer::layer::TrialLayer;

// Writes each object: its location, and each of its methods as label, list and environment.
fn show<S: Store>(rt: &impl Print, when: &str, store: &S) -> io::Result<()> {
    println!(rt; "{when}:")?;
    for location in 0..store.object_count() {
        print!(rt; "  {location}:")?;
        let Ok(size) = store.size(location) else {
            return Ok(());
        };
        for place in 0..size {
            if let Ok(method) = store.method_at(location, place) {
                let label = method.label;
                let list = method.closure.list;
                let env = method.closure.env;
                print!(rt; " {label}={list}/{env}")?;
            }
        }
        println!(rt; "")?;
    }
    Ok(())
}

// Two updates of an object, and a clone of it with an update of its own.
fn change<S: Store>(store: &mut S) {
    let _ = store.update(0, 0, Closure { list: 70, env: 7 });
    let _ = store.update(0, 1, Closure { list: 80, env: 7 });
    if let Ok(copy) = store.clone_object(0) {
        let _ = store.update(copy, 0, Closure { list: 90, env: 9 });
    }
}

// The changes on trial, put back. Nothing may leave the function before the token is spent, so the answer of `show` waits.
fn change_and_put_back<S: Store>(
    rt: &impl Print,
    layer: &mut TrialLayer<S>,
) -> (io::Result<()>, Result<(), TrialFault>) {
    let token = match layer.open() {
        Ok(token) => token,
        Err(fault) => return (Ok(()), Err(fault)),
    };
    change(layer);
    let shown = show(rt, "during", layer);
    let ended = match layer.put_back(token) {
        Ok(()) => Ok(()),
        Err((back, _)) => layer.keep(back),
    };
    (shown, ended)
}

// The changes on trial, kept.
fn change_and_keep<S: Store>(layer: &mut TrialLayer<S>) -> Result<(), TrialFault> {
    let token = layer.open()?;
    change(layer);
    layer.keep(token)
}

fn say(rt: &impl Print, what: &str, ended: Result<(), TrialFault>) -> io::Result<()> {
    match ended {
        Ok(()) => println!(rt; "{what}"),
        Err(fault) => {
            let number = fault.number();
            println!(rt; "refused by {number}")
        }
    }
}

fn demo<S: Store + Drop>(rt: &impl Print, below: S) -> io::Result<()> {
    let mut layer = TrialLayer::new(below);
    let entries = [
        MethodEntry { label: 1, list: 10 },
        MethodEntry { label: 2, list: 20 },
    ];
    let _ = layer.make(&entries, 5);
    show(rt, "before", &layer)?;
    let (shown, ended) = change_and_put_back(rt, &mut layer);
    shown?;
    say(rt, "put back", ended)?;
    show(rt, "after", &layer)?;
    let ended = change_and_keep(&mut layer);
    say(rt, "kept", ended)?;
    show(rt, "after", &layer)
}

fn main(rt: HostRuntime) -> io::Result<()> {
    let mut objects = [Span::default(); 8];
    let mut methods = [Method::default(); 16];
    demo(&rt, FlatStore::new(&mut objects, &mut methods))
}
