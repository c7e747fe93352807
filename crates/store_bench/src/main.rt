//! Times the two kinds of store against each other, when asked to by an argument.
#![tactic(auto)]

mod loads;

use crate::loads::{Updates, clones, lone_setup, lone_updates};
use flat_store::table::FlatStore;
use sharing_store::entries::SharedEntry;
use sharing_store::table::SharingStore;
use std::time::Instant;
use std::{env, io};
use store::closures::Method;
use store::layout::Span;

const ROUNDS: u32 = 4000;

const UPDATES: u32 = 10_000_000;

// The microseconds since the start.
fn since(rt: &HostRuntime, start: Instant) -> io::Result<u64> {
    let spent = start.elapsed(rt)?;
    Ok(
        spent
            .as_secs()
            .wrapping_mul(1_000_000)
            .wrapping_add(spent.subsec_micros() as u64),
    )
}

// What so many rounds take, each with the answer of a load.
fn rounds<F: FnMut() -> u32>(rt: &HostRuntime, kind: &str, mut round: F) -> io::Result<u64>
    requires { F.IsAlwaysCallable round }
{
    let start = Instant::now(rt)?;
    let mut sum = 0;
    for _ in 0..ROUNDS {
        sum ^= round();
    }
    let spent = since(rt, start)?;
    println!(rt; "  {kind} {spent} us (sum {sum})")?;
    Ok(spent)
}

// What updates of objects that share with none take, among so many objects.
fn sharing_updates(rt: &HostRuntime, objects: u32) -> io::Result<u64> {
    let mut entries = [SharedEntry::default(); 100_000];
    let mut methods = [Method::default(); 400_000];
    let mut store = SharingStore::new(&mut entries, &mut methods);
    lone_setup(&mut store, objects);
    let start = Instant::now(rt)?;
    let sum = lone_updates(&mut store, UPDATES);
    let spent = since(rt, start)?;
    println!(rt; "  {objects} objects {spent} us (sum {sum})")?;
    Ok(spent)
}

// The first in hundredths of the second.
fn print_ratio(rt: &HostRuntime, first: u64, second: u64) -> io::Result<()> {
    if second == 0 {
        return println!(rt; "  too fast to tell");
    }
    let percent = first.wrapping_mul(100) / second;
    println!(rt; "  ratio {percent} %")
}

// A thousand clones of an object of 64 methods, round by round in stores of both kinds.
fn compare(rt: &HostRuntime, updates: Updates) -> io::Result<()> {
    let mut methods = [Method::default(); 64064];
    let mut spans = [Span::default(); 1001];
    let flat = rounds(rt, "flat", || {
        clones(&mut FlatStore::new(&mut spans, &mut methods), 1000, updates)
    })?;
    let mut entries = [SharedEntry::default(); 1001];
    let sharing = rounds(rt, "sharing", || {
        clones(
            &mut SharingStore::new(&mut entries, &mut methods),
            1000,
            updates,
        )
    })?;
    print_ratio(rt, sharing, flat)
}

fn run(rt: &HostRuntime) -> io::Result<()> {
    println!(rt; "ten million updates in a sharing store of objects with which none shares")?;
    let few = sharing_updates(rt, 100)?;
    let more = sharing_updates(rt, 10_000)?;
    let many = sharing_updates(rt, 100_000)?;
    print_ratio(rt, more, few)?;
    print_ratio(rt, many, few)?;
    println!(rt; "4,000 times a thousand clones of an object of 64 methods")?;
    compare(rt, Updates::None)?;
    println!(rt; "the same, each clone updated once")?;
    compare(rt, Updates::Clones)?;
    println!(rt; "the same, what they copy updated once at the end")?;
    compare(rt, Updates::Original)
}

fn main(rt: HostRuntime) -> io::Result<()> {
    let mut args = env::args(&rt)?;
    let _ = args.next();
    if args.next().is_some() {
        run(&rt)
    } else {
        println!(rt; "times the stores when given any argument")
    }
}
