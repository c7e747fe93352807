//! The calls that both stores are put through.
use calculus::code::MethodEntry;
use std::{array, iter};
use store::closures::Closure;
use store_laws::runs::StoreCall;

/// Method entries with the labels 1 to 64.
pub fn table() -> [MethodEntry; 64] {
    array::from_fn(|i| MethodEntry {
        label: i as u16 + 1,
        list: 100 + i as u32,
    })
}

pub fn closure(list: u32) -> Closure {
    Closure { list, env: 7 }
}

/// An update that tells by its list where it was made.
pub fn updated(location: u32, place: u32) -> StoreCall {
    StoreCall::Update(
        location,
        place,
        closure(location.wrapping_mul(1000).wrapping_add(place)),
    )
}

/// What the clones of an object are made of.
#[derive(Clone, Copy)]
pub enum Shape {
    /// Each is a clone of the one before it.
    Chain,
    /// All are clones of the first.
    Fan,
}

/// An object and its clones; then an update of the object at `at`, of the first and of the last, and one clone more of that at `at`.
pub fn shaped(shape: Shape, clones: u32, at: u32, calls: &mut [StoreCall]) {
    let made = StoreCall::Make {
        first: 0,
        count: 4,
        env: 1,
    };
    let cloned = (0..clones).map(|newest| {
        StoreCall::Clone(match shape {
            Shape::Chain => newest,
            Shape::Fan => 0,
        })
    });
    let changed = [
        updated(at, 1),
        updated(0, 2),
        updated(clones, 3),
        StoreCall::Clone(at),
    ];
    let all = iter::once(made).chain(cloned).chain(changed);
    for (call, next) in calls.iter_mut().zip(all) {
        *call = next;
    }
}

/// A fixed sequence of numbers, by its seed.
#[derive(Drop)]
struct Random {
    seed: u64,
}

impl Random {
    // The seed as a number below n, or 0.
    fn scaled(&self, n: u32) -> u32 {
        if n == 0 {
            0
        } else {
            ((self.seed >> 33) % n as u64) as u32
        }
    }

    // The next number, below n, or 0.
    fn below(&mut self, n: u32) -> u32 {
        self.seed = self
            .seed
            .wrapping_mul(6364136223846793005)
            .wrapping_add(1442695040888963407);
        self.scaled(n)
    }
}

/// Calls by the seed: of twenty, one makes, six clone, nine update, and four ask. Locations and places may be missing.
pub fn mixed(seed: u64, calls: &mut [StoreCall]) {
    let mut random = Random { seed };
    let mut objects = 1;
    for call in calls {
        let kind = random.below(20);
        let location = random.below(objects);
        let place = random.below(6);
        *call = match kind {
            0 => StoreCall::Make {
                first: place,
                count: place,
                env: location,
            },
            1..=6 => StoreCall::Clone(location),
            7..=15 => StoreCall::Update(location, place, closure(random.scaled(100000))),
            16 => StoreCall::Find(location, 3),
            17 => StoreCall::MethodAt(location, place),
            18 => StoreCall::Size(location),
            _ => StoreCall::ObjectCount,
        };
        if kind <= 6 && objects < 1000 {
            objects += 1;
        }
    }
}
