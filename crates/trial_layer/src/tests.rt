//! The last number of a trial, reached through a layer's own state.
ghost use Rattle.store.specs.Meaning.{begun};

use crate::book::Book;
use crate::faults::TrialFault;
use crate::layer::TrialLayer;
use crate::notes::NoteTable;
use crate::state::TrialState;
use calculus::code::MethodEntry;
use std::test::Fail;
use store::closures::{Closure, Method};
use store::faults::StoreFault;
use store::store::Store;

/// A store with no room for any object.
#[derive(Drop)]
struct Nothing;

impl Store for Nothing {
    ghost meaning = { λ _. begun 0 0 };

    fn object_count(&self) -> u32 {
        0
    }

    fn object_limit(&self) -> u32 {
        0
    }

    fn method_limit(&self) -> u32 {
        0
    }

    fn size(&self, _location: u32) -> Result<u32, StoreFault> {
        Err(StoreFault::NoLocation)
    }

    fn method_at(&self, _location: u32, _place: u32) -> Result<Method, StoreFault> {
        Err(StoreFault::NoLocation)
    }

    fn find(&self, _location: u32, _label: u16) -> Result<Option<u32>, StoreFault> {
        Err(StoreFault::NoLocation)
    }

    fn make(&mut self, _entries: &[MethodEntry], _env: u32) -> Result<u32, StoreFault> {
        Err(StoreFault::ObjectsFull)
    }

    fn clone_object(&mut self, _location: u32) -> Result<u32, StoreFault> {
        Err(StoreFault::NoLocation)
    }

    fn update(&mut self, _location: u32, _place: u32, _closure: Closure) -> Result<(), StoreFault> {
        Err(StoreFault::NoLocation)
    }
}

// Opens a trial and keeps it: its number, or the fault.
fn next(layer: &mut TrialLayer<Nothing>) -> Result<u32, TrialFault> {
    let token = layer.open()?;
    let number = token.number();
    layer.keep(token)?;
    Ok(number)
}

#[test]
fn last_number(rt: HostRuntime) -> Result<(), Fail> {
    let mut layer = TrialLayer {
        below: Nothing,
        book: Book {
            last: u32::MAX - 1,
            state: TrialState::Closed,
            notes: NoteTable::new(),
            count: 0,
        },
    };
    assert_eq!(rt; next(&mut layer)?, u32::MAX);
    assert_eq!(rt; next(&mut layer).map_err(TrialFault::number), Err(28));
    Ok(())
}
