//! Areas that hold junk, and a store of each kind over them: areas may hold anything when a store begins.
ghost use Rattle.std.specs.Prelude.{◌≤◌};

use flat_store::table::FlatStore;
use sharing_store::entries::SharedEntry;
use sharing_store::table::SharingStore;
use store::closures::{Closure, Method};
use store::layout::Span;

/// Does this with a new store of each kind. The areas stand here and are lent: a value that held them would be copied as it is handed out.
pub fn over_junk<
    const OBJECTS: usize,
    const METHODS: usize,
    R,
    F: FnOnce(&mut FlatStore<'_>, &mut SharingStore<'_>) -> R,
>(run: F) -> R
    requires objects { OBJECTS ≤ 400 }
    requires methods { METHODS ≤ 1600 }
    requires run { F.IsAlwaysCallable run }
{
    let method = Method {
        label: 9,
        closure: Closure { list: 9, env: 9 },
    };
    let entry = SharedEntry {
        first: 9,
        size: 9,
        held: 9,
        root: 9,
        last: 9,
        previous: 9,
    };
    let mut spans = [Span { first: 9, size: 9 }; OBJECTS];
    let mut flat_methods = [method; METHODS];
    let mut entries = [entry; OBJECTS];
    let mut sharing_methods = [method; METHODS];
    run(
        &mut FlatStore::new(&mut spans, &mut flat_methods),
        &mut SharingStore::new(&mut entries, &mut sharing_methods),
    )
}
