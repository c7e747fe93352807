//! The trait of every store.
ghost use Rattle.std.specs.Prelude.{◌≡◌, length};
ghost use Rattle.store.specs.Meaning.{Meaning, size_of, method_at, find_in, make_result, made_by, clone_result, cloned_by, update_result, updated};

use crate::closures::{Closure, Method};
use crate::faults::StoreFault;
use calculus::code::MethodEntry;

/// A store of objects. Its `meaning` is all that a caller can know of it: each call's answer, and what the store means
/// afterwards, are given by the meaning before it and the arguments.
pub trait Store {
    ghost meaning: { Self → Meaning };

    /// How many objects there are.
    fn object_count(&self) -> u32
        ensures { result ≡ length (meaning self.now).objects };

    /// How many objects there can be.
    fn object_limit(&self) -> u32
        ensures { result ≡ (meaning self.now).object_limit };

    /// How many methods all objects together can have.
    fn method_limit(&self) -> u32
        ensures { result ≡ (meaning self.now).method_limit };

    /// How many methods the object at a location has.
    fn size(&self, location: u32) -> Result<u32, StoreFault>
        ensures { result ≡ size_of (meaning self.now) location };

    /// The label and the closure at a place, from 0, of the object at a location.
    fn method_at(&self, location: u32, place: u32) -> Result<Method, StoreFault>
        ensures { result ≡ method_at (meaning self.now) location place };

    /// The place of the first method with the label, if there is one.
    fn find(&self, location: u32, label: u16) -> Result<Option<u32>, StoreFault>
        ensures { result ≡ find_in (meaning self.now) location label };

    /// Adds an object with these methods, all closed over one environment, and answers its location.
    fn make(&mut self, entries: &[MethodEntry], env: u32) -> Result<u32, StoreFault>
        ensures answer { result ≡ make_result (meaning self.old) entries.now }
        ensures state { meaning self.new ≡ made_by (meaning self.old) entries.now env };

    /// Adds a copy of the object at a location, and answers the copy's location.
    fn clone_object(&mut self, location: u32) -> Result<u32, StoreFault>
        ensures answer { result ≡ clone_result (meaning self.old) location }
        ensures state { meaning self.new ≡ cloned_by (meaning self.old) location };

    /// Replaces the closure at a place of the object at a location.
    fn update(&mut self, location: u32, place: u32, closure: Closure) -> Result<(), StoreFault>
        ensures answer { result ≡ update_result (meaning self.old) location place }
        ensures state { meaning self.new ≡ updated (meaning self.old) location place closure };
}
