//! The trial layer as a store.
ghost use Rattle.trial_layer.specs.Layers.{layer_meaning};

use crate::layer::TrialLayer;
use calculus::code::MethodEntry;
use store::closures::{Closure, Method, OldMethod};
use store::faults::StoreFault;
use store::store::Store;

impl<S: Store> Store for TrialLayer<S> {
    ghost meaning = { λ t. layer_meaning S.Store.meaning t };

    fn object_count(&self) -> u32 {
        self.below.object_count()
    }

    fn object_limit(&self) -> u32 {
        self.below.object_limit()
    }

    fn method_limit(&self) -> u32 {
        self.below.method_limit()
    }

    fn size(&self, location: u32) -> Result<u32, StoreFault> {
        self.below.size(location)
    }

    fn method_at(&self, location: u32, place: u32) -> Result<Method, StoreFault> {
        self.below.method_at(location, place)
    }

    fn find(&self, location: u32, label: u16) -> Result<Option<u32>, StoreFault> {
        self.below.find(location, label)
    }

    fn make(&mut self, entries: &[MethodEntry], env: u32) -> Result<u32, StoreFault> {
        self.below.make(entries, env)
    }

    fn clone_object(&mut self, location: u32) -> Result<u32, StoreFault> {
        self.below.clone_object(location)
    }

    /// Notes the old closure first, while a trial is open.
    fn update(&mut self, location: u32, place: u32, closure: Closure) -> Result<(), StoreFault> {
        let old = self.below.method_at(location, place)?;
        self.book.note(OldMethod {
            location,
            place,
            closure: old.closure,
        });
        self.below.update(location, place, closure)
    }
}
