//! Drives a flat store and a sharing store through the same calls, and prints what they answer and what they hold.
#![tactic(auto)]

ghost use Rattle.std.specs.Prelude.{◌≤◌};

mod calls;
mod compared;
mod junk;
mod shown;

use crate::calls::{Shape, closure, updated};
use crate::compared::{mixed_alike, shape_alike};
use crate::shown::both;
use std::io;
use store_laws::runs::StoreCall;

// A clone, and updates of it, of what it copies and of a clone of the clone.
fn first_steps(rt: &HostRuntime) -> io::Result<()> {
    let calls = [
        StoreCall::Make {
            first: 0,
            count: 3,
            env: 5,
        },
        StoreCall::Clone(0),
        StoreCall::Clone(1),
        updated(1, 0),
        updated(0, 2),
        updated(2, 1),
        StoreCall::Find(1, 3),
        StoreCall::Find(1, 4),
        StoreCall::MethodAt(1, 0),
        StoreCall::Clone(1),
        StoreCall::Update(3, 3, closure(9)),
        StoreCall::Update(4, 0, closure(9)),
    ];
    println!(rt; "a clone, and updates at either end")?;
    both::<8, 16>(rt, &calls)
}

fn small_area<const OBJECTS: usize, const METHODS: usize>(
    rt: &HostRuntime,
    calls: &[StoreCall],
) -> io::Result<()>
    requires objects { OBJECTS ≤ 400 }
    requires methods { METHODS ≤ 1600 }
{
    println!(rt; "object area of {OBJECTS}, method area of {METHODS}")?;
    both::<OBJECTS, METHODS>(rt, calls)
}

// What areas of no entries and of one let be made.
fn small_areas(rt: &HostRuntime) -> io::Result<()> {
    let calls = [
        StoreCall::ObjectLimit,
        StoreCall::MethodLimit,
        StoreCall::Clone(0),
        StoreCall::Make {
            first: 0,
            count: 2,
            env: 0,
        },
        StoreCall::Make {
            first: 0,
            count: 1,
            env: 0,
        },
        StoreCall::Make {
            first: 0,
            count: 0,
            env: 0,
        },
        StoreCall::Clone(0),
        updated(0, 0),
        StoreCall::Size(0),
    ];
    small_area::<0, 0>(rt, &calls)?;
    small_area::<0, 1>(rt, &calls)?;
    small_area::<1, 0>(rt, &calls)?;
    small_area::<1, 1>(rt, &calls)
}

// Objects of no methods and of 64.
fn small_and_large(rt: &HostRuntime) -> io::Result<()> {
    let calls = [
        StoreCall::Make {
            first: 0,
            count: 0,
            env: 1,
        },
        StoreCall::Make {
            first: 0,
            count: 64,
            env: 2,
        },
        StoreCall::Clone(0),
        StoreCall::Clone(1),
        StoreCall::Size(2),
        StoreCall::Size(3),
        StoreCall::Find(0, 1),
        StoreCall::Find(3, 1),
        StoreCall::Find(3, 64),
        StoreCall::Find(3, 65),
        updated(0, 0),
        updated(1, 63),
        updated(3, 0),
        updated(3, 64),
        StoreCall::Clone(3),
        StoreCall::Make {
            first: 1,
            count: 1,
            env: 3,
        },
    ];
    println!(rt; "objects of no methods and of 64")?;
    both::<8, 200>(rt, &calls)
}

// Whether the two kinds were alike, and with how many objects.
fn print_alike(rt: &HostRuntime, objects: Option<u32>) -> io::Result<()> {
    match objects {
        Some(count) => print!(rt; " alike with {count} objects"),
        None => print!(rt; " NOT ALIKE"),
    }
}

fn main(rt: HostRuntime) -> io::Result<()> {
    first_steps(&rt)?;
    small_areas(&rt)?;
    small_and_large(&rt)?;
    for clones in 1..9u32 {
        for at in 0..=clones {
            print!(rt; "{clones} clones, update at {at}: chain")?;
            print_alike(&rt, shape_alike(Shape::Chain, clones, at))?;
            print!(rt; ", fan")?;
            print_alike(&rt, shape_alike(Shape::Fan, clones, at))?;
            println!(rt; "")?;
        }
    }
    for seed in 0..20u64 {
        print!(rt; "mixed run {seed}:")?;
        print_alike(&rt, mixed_alike(seed))?;
        println!(rt; "")?;
    }
    Ok(())
}
