//! Where an object's methods stand in an area: what the kinds of store share.
ghost use Rattle.std.specs.Prelude.{slice_get, ◌≡◌};
ghost use Rattle.store.specs.Layout.{part};
ghost use Rattle.store.specs.Meaning.{place_from};

use crate::closures::Method;
use calculus::lookup::entry_at;

/// A stretch of a method area: its first entry, and how many there are.
#[derive(Clone, Copy, Default)]
pub struct Span {
    pub first: u32,
    pub size: u32,
}

/// The method at a place, from 0, in a stretch of the methods.
pub fn method_in(methods: &[Method], span: Span, place: u32) -> Option<Method>
    ensures { result ≡ slice_get (part methods.now span) place }
{
    if place >= span.size {
        return None;
    }
    entry_at(methods, span.first as usize + place as usize)
}

/// The place, from 0, of the first method with the label in a stretch of the methods.
pub fn place_of(methods: &[Method], span: Span, label: u16) -> Option<u32>
    ensures { result ≡ place_from 0 (part methods.now span) label }
{
    let first = span.first as usize;
    // By the place, and not by a method of the library: a rule of the project for this search.
    for place in 0..span.size {
        match entry_at(methods, first + place as usize) {
            Some(method) if method.label == label => return Some(place),
            Some(_) => {}
            None => return None,
        }
    }
    None
}
