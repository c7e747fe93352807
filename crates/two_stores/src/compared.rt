//! The two kinds of store compared call by call and object by object.
ghost use Rattle.std.specs.Prelude.{◌≤◌};

use crate::calls::{Shape, mixed, shaped, table};
use crate::junk::over_junk;
use store::store::Store;
use store_laws::runs::{StoreAnswer, StoreCall, perform_all};

fn same_object<S: Store, T: Store>(left: &S, right: &T, location: u32) -> bool {
    let Ok(size) = left.size(location) else {
        return false;
    };
    right.size(location) == Ok(size)
        && (0..size).all(|place| {
            let method = left.method_at(location, place);
            method.is_ok() && method == right.method_at(location, place)
        })
}

fn same_objects<S: Store, T: Store>(left: &S, right: &T) -> bool {
    let count = left.object_count();
    count == right.object_count() && (0..count).all(|location| same_object(left, right, location))
}

// How many objects both stores have after the calls (1,000 at most), if they gave the same answers and have the same objects.
fn alike_after<S: Store, T: Store>(
    left: &mut S,
    right: &mut T,
    calls: &[StoreCall],
) -> Option<u32> {
    let mut answers = [Ok(StoreAnswer::Updated); 1000];
    let mut others = [Ok(StoreAnswer::Updated); 1000];
    let table = table();
    let made = perform_all(left, &table, calls, &mut answers);
    if perform_all(right, &table, calls, &mut others) != made {
        return None;
    }
    let same = answers[..made] == others[..made] && same_objects(left, right);
    same.then_some(left.object_count())
}

// The same of new stores of both kinds, over areas of these lengths.
fn alike<const OBJECTS: usize, const METHODS: usize>(calls: &[StoreCall]) -> Option<u32>
    requires objects { OBJECTS ≤ 400 }
    requires methods { METHODS ≤ 1600 }
{
    over_junk::<OBJECTS, METHODS, _, _>(|flat, sharing| alike_after(flat, sharing, calls))
}

/// An object and its clones, with updates.
pub fn shape_alike(shape: Shape, clones: u32, at: u32) -> Option<u32> {
    let mut calls = [StoreCall::ObjectCount; 20];
    shaped(shape, clones, at, &mut calls);
    alike::<400, 1600>(&calls)
}

/// A thousand calls by the seed, in areas of which now the one and now the other fills up.
pub fn mixed_alike(seed: u64) -> Option<u32> {
    let mut calls = [StoreCall::ObjectCount; 1000];
    mixed(seed, &mut calls);
    if seed % 2 == 0 {
        alike::<120, 1600>(&calls)
    } else {
        alike::<400, 300>(&calls)
    }
}
