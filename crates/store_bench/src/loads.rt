//! What is timed, over any store. Each load answers a sum of what it read, so that none of it can be left out.
use calculus::code::MethodEntry;
use store::closures::Closure;
use store::store::Store;

fn entries() -> [MethodEntry; 64] {
    [MethodEntry { label: 1, list: 2 }; 64]
}

fn closure(list: u32) -> Closure {
    Closure { list, env: 1 }
}

// The list of a method, or 0 where there is none.
fn list_at<S: Store>(store: &S, location: u32, place: u32) -> u32 {
    store
        .method_at(location, place)
        .map_or(0, |method| method.closure.list)
}

/// What is updated among an object and its clones.
#[derive(Clone, Copy)]
pub enum Updates {
    None,
    /// Each clone once, as soon as it is made.
    Clones,
    /// The object that they copy, once, after all of them.
    Original,
}

/// An object of 64 methods and so many clones of it.
pub fn clones<S: Store>(store: &mut S, count: u32, updates: Updates) -> u32 {
    let _ = store.make(&entries(), 0);
    for i in 0..count {
        if let Ok(copy) = store.clone_object(0) {
            if let Updates::Clones = updates {
                let _ = store.update(copy, i % 64, closure(i));
            }
        }
    }
    if let Updates::Original = updates {
        let _ = store.update(0, 5, closure(count));
    }
    list_at(store, count, 63)
}

/// Sixteen objects that share with none, one more, and clones of that until there are `count`.
pub fn lone_setup<S: Store>(store: &mut S, count: u32) {
    for _ in 0..17u32 {
        let _ = store.make(&entries()[0..4], 0);
    }
    for _ in 17..count {
        let _ = store.clone_object(16);
    }
}

/// Updates of the sixteen in turn.
pub fn lone_updates<S: Store>(store: &mut S, count: u32) -> u32 {
    for i in 0..count {
        let _ = store.update(i % 16, i % 4, closure(i));
    }
    list_at(store, 3, 3)
}
