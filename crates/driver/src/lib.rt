//! A script from its first line to its last: reads calls, carries them out in a session, and prints the answers.
#![tactic(auto)]

mod performing;
mod reading;
mod showing;
mod trials;

use crate::performing::perform;
use crate::reading::Script;
use crate::trials::{Held, NoTrials, Trials};
use calculus::code::{ListEntry, MethodEntry, Operation, Tables};
use calculus::values::Value;
use flat_store::table::FlatStore;
use machine_model::state::{Cell, Frame};
use script::calls::Call;
use script::settings::{Area, StoreKind};
use session::session::Session;
use sharing_store::entries::SharedEntry;
use sharing_store::table::SharingStore;
use std::io;
use store::closures::Method;
use store::layout::Span;
use store::store::Store;
use trial_layer::layer::TrialLayer;

/// A session over this store, from the first call to the end of the script.
fn drive<T: Trials<S>, S: Store + Drop>(
    script: &mut Script,
    first: Call,
    store: S,
) -> io::Result<()> {
    let heap = script.heap();
    // a value has no default
    let no_cell = Cell {
        value: Value::Figure(0),
        parent: 0,
    };
    let mut contents = vec![in heap; ListEntry::default(); script.length(Area::Contents)]?;
    let mut operations = vec![in heap; Operation::Clone; script.length(Area::Operations)]?;
    let mut methods = vec![in heap; MethodEntry::default(); script.length(Area::Methods)]?;
    let mut cells = vec![in heap; no_cell; script.length(Area::Cells)]?;
    let mut frames = vec![in heap; Frame::default(); script.length(Area::Frames)]?;
    let tables = Tables {
        contents: &mut contents,
        operations: &mut operations,
        methods: &mut methods,
    };
    let mut session = Session::new(tables, &mut cells, &mut frames, store);
    let mut trials = T::none_open();
    let answered = answer_all(script, first, &mut session, &mut trials);
    trials.finish(&mut session);
    answered
}

/// Answers the first call and every call after it.
fn answer_all<S: Store, T: Trials<S>>(
    script: &mut Script,
    first: Call,
    session: &mut Session<'_, S>,
    trials: &mut T,
) -> io::Result<()> {
    let mut call = first;
    // counted, since a loop has a measure: `for call in ..` over the script would borrow it, and the body prints with it
    for _ in 0..u64::MAX {
        perform(script, session, trials, &call)?;
        let Some(next) = script.next_call()? else {
            return Ok(());
        };
        call = next;
    }
    Ok(())
}

/// A trial layer over this store.
fn drive_layer<S: Store + Drop>(script: &mut Script, first: Call, below: S) -> io::Result<()> {
    drive::<Held, _>(script, first, TrialLayer::new(below))
}

/// Two trial layers over this store.
fn drive_two_layers<S: Store + Drop>(script: &mut Script, first: Call, below: S) -> io::Result<()> {
    drive_layer(script, first, TrialLayer::new(below))
}

/// Makes the areas of a store and lends them.
fn with_areas<O: Copy + Drop, R: FnOnce(&mut Script, &mut [O], &mut [Method]) -> io::Result<()>>(
    script: &mut Script,
    no_object: O,
    run: R,
) -> io::Result<()>
    requires { R.IsAlwaysCallable run }
{
    let heap = script.heap();
    let mut objects = vec![in heap; no_object; script.length(Area::Objects)]?;
    let mut slots = vec![in heap; Method::default(); script.length(Area::Slots)]?;
    run(script, &mut objects, &mut slots)
}

/// Reads the script on standard input and prints the answers on standard output. A bad line ends it, after a message on standard error.
pub fn run_script(rt: HostRuntime) -> io::Result<()> {
    let mut script = Script::new(rt)?;
    let Some(first) = script.next_call()? else {
        return Ok(());
    };
    let span = Span::default();
    let shared = SharedEntry::default();
    match script.store_kind() {
        StoreKind::Flat => with_areas(&mut script, span, |script, objects, slots| {
            drive::<NoTrials, _>(script, first, FlatStore::new(objects, slots))
        }),
        StoreKind::TrialFlat => with_areas(&mut script, span, |script, objects, slots| {
            drive_layer(script, first, FlatStore::new(objects, slots))
        }),
        StoreKind::Sharing => with_areas(&mut script, shared, |script, objects, slots| {
            drive::<NoTrials, _>(script, first, SharingStore::new(objects, slots))
        }),
        StoreKind::TrialSharing => with_areas(&mut script, shared, |script, objects, slots| {
            drive_layer(script, first, SharingStore::new(objects, slots))
        }),
        StoreKind::TrialTrialSharing => with_areas(&mut script, shared, |script, objects, slots| {
            drive_two_layers(script, first, SharingStore::new(objects, slots))
        }),
    }
}
