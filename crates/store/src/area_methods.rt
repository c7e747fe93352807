//! What every kind of store does with its two areas.
ghost use Rattle.std.specs.Prelude.{◌≡◌, ℕ, ◌+◌, ◌<◌, ◌≤◌, length, slice_index_or, slice_set};
ghost use Rattle.std.proofs.Math.Seq.{paste};
ghost use Rattle.calculus.specs.Held.{counted};
ghost use Rattle.store.specs.Areas.{entry_of, method_of_span, room_in, closure_put, closure_answer, Changed, Added};
ghost use Rattle.store.specs.Layout.{part};
ghost use Rattle.store.specs.Meaning.{place_from, methods_of};

use crate::areas::Areas;
use crate::closures::{Closure, Method};
use crate::faults::StoreFault;
use crate::layout::{Span, method_in, place_of};
use calculus::area::counted_len;
use calculus::code::MethodEntry;

impl<'a, E: Copy> Areas<'a, E> {
    /// Areas of which nothing is in use; their lengths set the limits.
    pub fn new(objects: &'a mut [E], methods: &'a mut [Method]) -> Areas<'a, E>
        ensures object_count { result.object_count ≡ 0 }
        ensures method_count { result.method_count ≡ 0 }
        ensures object_limit { result.object_limit ≡ counted (length objects.old) }
        ensures method_limit { result.method_limit ≡ counted (length methods.old) }
    {
        let object_limit = counted_len(objects.len());
        let method_limit = counted_len(methods.len());
        Areas {
            objects,
            methods,
            object_limit,
            method_limit,
            object_count: 0,
            method_count: 0,
        }
    }

    /// How many objects there are.
    pub fn object_count(&self) -> u32
        ensures { result ≡ self.now.object_count }
    {
        self.object_count // entries past it may be anything
    }

    /// How many methods they have together.
    pub fn method_count(&self) -> u32
        ensures { result ≡ self.now.method_count }
    {
        self.method_count // methods past it may be anything
    }

    /// How many objects there can be.
    pub fn object_limit(&self) -> u32
        ensures { result ≡ self.now.object_limit }
    {
        self.object_limit
    }

    /// How many methods they can have together.
    pub fn method_limit(&self) -> u32
        ensures { result ≡ self.now.method_limit }
    {
        self.method_limit
    }

    /// The entry of an object that there is.
    pub fn at(&self, location: u32) -> E
        requires { location < self.now.object_count }
        ensures { (e : E) → result ≡ slice_index_or self.now.objects.now location e }
    {
        self.objects[location as usize] // one that is counted
    }

    /// The entry of the object at a location.
    pub fn entry(&self, location: u32) -> Result<E, StoreFault>
        ensures { result ≡ entry_of self.now location }
    {
        if location >= self.object_count {
            return Err(StoreFault::NoLocation);
        }
        Ok(self.at(location))
    }

    /// The method at a place, from 0, of those in a span.
    pub fn method_at(&self, span: Span, place: u32) -> Result<Method, StoreFault>
        ensures { result ≡ method_of_span (part self.now.methods.now span) place }
    {
        method_in(&*self.methods, span, place).ok_or(StoreFault::NoPlace)
    }

    /// The place, from 0, of the first method with the label of those in a span.
    pub fn find(&self, span: Span, label: u16) -> Option<u32>
        ensures { result ≡ place_from 0 (part self.now.methods.now span) label }
    {
        place_of(&*self.methods, span, label)
    }

    /// The location of one object more, of so many methods, if there is room for it.
    pub fn room_for(&self, size: usize) -> Result<u32, StoreFault>
        ensures { result ≡ room_in self.now size }
    {
        if self.object_count >= self.object_limit {
            return Err(StoreFault::ObjectsFull);
        }
        if size > (self.method_limit - self.method_count) as usize {
            return Err(StoreFault::MethodsFull);
        }
        Ok(self.object_count)
    }

    /// Writes the methods of the entries past those that are counted, and says where they stand.
    pub fn write_methods(&mut self, entries: &[MethodEntry], env: u32) -> Span
        requires { self.old.method_count + length entries.now ≤ self.old.method_limit }
        ensures first { result.first ≡ self.old.method_count }
        ensures size { result.size ≡ length entries.now }
        ensures written { Changed self.old self.new self.old.objects.now (paste self.old.methods.now self.old.method_count (methods_of entries.now env) (length entries.now)) }
    {
        let first = self.method_count as usize;
        // by index: of what an adapter of `iter_mut` lends out a proof knows no element afterwards
        for (i, entry) in entries.iter().enumerate() {
            let closure = Closure {
                list: entry.list,
                env,
            };
            self.methods[first + i] = Method {
                label: entry.label,
                closure,
            };
        }
        Span {
            first: self.method_count,
            size: entries.len() as u32,
        }
    }

    /// Copies the methods of a span to those from a place on.
    pub fn copy_methods(&mut self, from: Span, to: u32)
        requires within { from.first + from.size ≤ length self.old.methods.now }
        requires room { to + from.size ≤ length self.old.methods.now }
        ensures { Changed self.old self.new self.old.objects.now (paste self.old.methods.now to (part self.old.methods.now from) from.size) }
    {
        let start = from.first as usize;
        let end = start + from.size as usize;
        self.methods.copy_within(start..end, to as usize);
    }

    /// One object more, with this entry and so many methods.
    pub fn add(&mut self, entry: E, size: u32)
        requires objects { self.old.object_count < self.old.object_limit }
        requires methods { self.old.method_count + size ≤ self.old.method_limit }
        ensures { Added self.old self.new entry size }
    {
        self.objects[self.object_count as usize] = entry;
        self.object_count += 1;
        self.method_count += size;
    }

    /// Another entry for an object that there is.
    pub fn set(&mut self, location: u32, entry: E)
        requires { location < self.old.object_count }
        ensures { Changed self.old self.new (slice_set self.old.objects.now location entry) self.old.methods.now }
    {
        self.objects[location as usize] = entry;
    }

    /// Replaces the closure at a place of the methods in a span.
    pub fn set_closure(
        &mut self,
        span: Span,
        place: u32,
        closure: Closure,
    ) -> Result<(), StoreFault>
        ensures answer { result ≡ closure_answer (part self.old.methods.now span) place }
        ensures put { Changed self.old self.new self.old.objects.now (closure_put self.old.methods.now span place closure) }
    {
        let label = self.method_at(span, place)?.label;
        self.methods[span.first as usize + place as usize] = Method { label, closure };
        Ok(())
    }
}
