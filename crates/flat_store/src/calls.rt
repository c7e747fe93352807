//! The flat store's calls.
ghost use Rattle.std.specs.Prelude.{◌≡◌, length};
ghost use Rattle.calculus.specs.Held.{counted};
ghost use Rattle.store.specs.Meaning.{begun};
ghost use Rattle.flat_store.specs.Flat.{flat_meaning};

use crate::table::FlatStore;
use calculus::code::MethodEntry;
use store::areas::Areas;
use store::closures::{Closure, Method};
use store::faults::StoreFault;
use store::layout::Span;
use store::store::Store;

impl<'a> FlatStore<'a> {
    /// A store without objects over areas that may hold anything; their lengths are its limits.
    pub fn new(objects: &'a mut [Span], methods: &'a mut [Method]) -> FlatStore<'a>
        ensures { flat_meaning result ≡ begun (counted (length objects.old)) (counted (length methods.old)) }
    {
        FlatStore {
            areas: Areas::new(objects, methods),
        }
    }
}

impl<'a> Store for FlatStore<'a> {
    ghost meaning = { flat_meaning };

    fn object_count(&self) -> u32 {
        self.areas.object_count()
    }

    fn object_limit(&self) -> u32 {
        self.areas.object_limit()
    }

    fn method_limit(&self) -> u32 {
        self.areas.method_limit()
    }

    fn size(&self, location: u32) -> Result<u32, StoreFault> {
        Ok(self.areas.entry(location)?.size)
    }

    fn method_at(&self, location: u32, place: u32) -> Result<Method, StoreFault> {
        let span = self.areas.entry(location)?;
        self.areas.method_at(span, place)
    }

    fn find(&self, location: u32, label: u16) -> Result<Option<u32>, StoreFault> {
        let span = self.areas.entry(location)?;
        Ok(self.areas.find(span, label))
    }

    fn make(&mut self, entries: &[MethodEntry], env: u32) -> Result<u32, StoreFault> {
        let location = self.areas.room_for(entries.len())?;
        let span = self.areas.write_methods(entries, env);
        self.areas.add(span, span.size);
        Ok(location)
    }

    fn clone_object(&mut self, location: u32) -> Result<u32, StoreFault> {
        let from = self.areas.entry(location)?;
        let copy = self.areas.room_for(from.size as usize)?;
        let first = self.areas.method_count();
        self.areas.copy_methods(from, first);
        self.areas.add(Span { first, ..from }, from.size);
        Ok(copy)
    }

    fn update(&mut self, location: u32, place: u32, closure: Closure) -> Result<(), StoreFault> {
        let span = self.areas.entry(location)?;
        self.areas.set_closure(span, place, closure)
    }
}
