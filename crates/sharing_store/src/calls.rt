//! The sharing store's calls.
ghost use Rattle.std.specs.Prelude.{◌≡◌, ℕ, ◌<◌, length};
ghost use Rattle.calculus.specs.Held.{counted};
ghost use Rattle.store.specs.Meaning.{begun, clone_result, cloned_by, update_result, updated};
ghost use Rattle.sharing_store.specs.States.{sharing_meaning, Fills, Freed, RootOf, Lone};

use crate::entries::SharedEntry;
use crate::table::SharingStore;
use calculus::code::MethodEntry;
use store::areas::Areas;
use store::closures::{Closure, Method};
use store::faults::StoreFault;
use store::store::Store;

impl<'a> SharingStore<'a> {
    /// A store without objects over areas that may hold anything; their lengths are its limits.
    pub fn new(objects: &'a mut [SharedEntry], methods: &'a mut [Method]) -> SharingStore<'a>
        ensures { sharing_meaning result ≡ begun (counted (length objects.old)) (counted (length methods.old)) }
    {
        SharingStore {
            areas: Areas::new(objects, methods),
        }
    }

    // Copies the methods that an object shares into its own space.
    fn fill(&mut self, location: u32)
        requires { location < self.old.areas.object_count }
        ensures { Fills self.old self.new location }
    {
        let entry = self.areas.at(location);
        if entry.held != entry.first {
            self.areas.copy_methods(entry.held_span(), entry.first);
            let filled = SharedEntry {
                held: entry.first,
                ..entry
            };
            self.areas.set(location, filled);
        }
    }

    // The filled object whose methods the object has.
    fn root_of(&self, location: u32) -> u32
        requires { location < self.now.areas.object_count }
        ensures { RootOf self.now location result }
    {
        let entry = self.areas.at(location);
        if entry.held == entry.first {
            location
        } else {
            entry.root
        }
    }

    // Fills the object and each that shares with it, so that its space can be written. Their list goes through the entries of the
    // lent area, so no list of the library serves.
    fn free(&mut self, location: u32)
        requires { location < self.old.areas.object_count }
        ensures { Freed self.old self.new location }
    {
        self.fill(location);
        let mut at = self.areas.at(location).last;
        while at != location {
            self.fill(at);
            at = self.areas.at(at).previous;
        }
        let emptied = SharedEntry {
            last: location,
            ..self.areas.at(location)
        };
        self.areas.set(location, emptied);
    }
}

impl<'a> Store for SharingStore<'a> {
    ghost meaning = { sharing_meaning };

    fn object_count(&self) -> u32 {
        self.areas.object_count()
    }

    fn object_limit(&self) -> u32 {
        self.areas.object_limit()
    }

    fn method_limit(&self) -> u32 {
        self.areas.method_limit()
    }

    fn size(&self, location: u32) -> Result<u32, StoreFault> {
        Ok(self.areas.entry(location)?.size)
    }

    fn method_at(&self, location: u32, place: u32) -> Result<Method, StoreFault> {
        let entry = self.areas.entry(location)?;
        self.areas.method_at(entry.held_span(), place)
    }

    fn find(&self, location: u32, label: u16) -> Result<Option<u32>, StoreFault> {
        let entry = self.areas.entry(location)?;
        Ok(self.areas.find(entry.held_span(), label))
    }

    fn make(&mut self, entries: &[MethodEntry], env: u32) -> Result<u32, StoreFault> {
        let location = self.areas.room_for(entries.len())?;
        let span = self.areas.write_methods(entries, env);
        let entry = SharedEntry {
            first: span.first,
            size: span.size,
            held: span.first,
            root: location,
            last: location,
            previous: location,
        };
        self.areas.add(entry, span.size);
        Ok(location)
    }

    // Nothing is copied.
    fn clone_object(&mut self, location: u32) -> Result<u32, StoreFault>
        ensures answer { result ≡ clone_result (sharing_meaning self.old) location }
        ensures state { sharing_meaning self.new ≡ cloned_by (sharing_meaning self.old) location }
        ensures uncopied { self.new.areas.methods.now ≡ self.old.areas.methods.now }
    {
        let from = self.areas.entry(location)?;
        let copy = self.areas.room_for(from.size as usize)?;
        let root = self.root_of(location);
        let original = self.areas.at(root);
        let listing = SharedEntry {
            last: copy,
            ..original
        };
        self.areas.set(root, listing);
        let entry = SharedEntry {
            first: self.areas.method_count(),
            size: from.size,
            held: from.held,
            root,
            last: copy,
            previous: original.last,
        };
        self.areas.add(entry, from.size);
        Ok(copy)
    }

    // An object with which none shares is written in place, and no entry is looked at but its own.
    fn update(&mut self, location: u32, place: u32, closure: Closure) -> Result<(), StoreFault>
        ensures answer { result ≡ update_result (sharing_meaning self.old) location place }
        ensures state { sharing_meaning self.new ≡ updated (sharing_meaning self.old) location place closure }
        ensures lone { Lone self.old location → self.new.areas.objects.now ≡ self.old.areas.objects.now }
    {
        let entry = self.areas.entry(location)?;
        if place >= entry.size {
            return Err(StoreFault::NoPlace);
        }
        self.free(location);
        self.areas.set_closure(entry.own_span(), place, closure)
    }
}
