//! Lists of store calls, over any store.
ghost use Rattle.std.specs.Prelude.{◌≡◌, ℕ, min, List, ◌++◌, length, take, drop};
ghost use Rattle.store.specs.Meaning.{Meaning};
ghost use Rattle.store_laws.specs.Runs.{answer_to, meaning_after, answers_to, meaning_after_all, entries_at, Lasts, Alike};

use calculus::code::MethodEntry;
use store::closures::{Closure, Method};
use store::faults::StoreFault;
use store::store::Store;

/// A call on a store.
#[derive(Clone, Copy)]
pub enum StoreCall {
    ObjectCount,
    ObjectLimit,
    MethodLimit,
    Size(u32),
    /// A location and a place.
    MethodAt(u32, u32),
    /// A location and a label.
    Find(u32, u16),
    /// The first of the method entries in a table beside the calls, how many they are, and the environment.
    Make { first: u32, count: u32, env: u32 },
    Clone(u32),
    /// A location and a place, and the closure.
    Update(u32, u32, Closure),
}

/// What a store answers to a call that it does not refuse.
#[derive(Clone, Copy, PartialEq, Eq)]
pub enum StoreAnswer {
    /// A count, a limit or a size.
    Number(u32),
    Method(Method),
    /// Of the first method with the label, if the object has one.
    Place(Option<u32>),
    /// Of the object that was made.
    Location(u32),
    Updated,
}

// The entries from `first` on, `count` or as many as there are.
fn entries_at(table: &[MethodEntry], first: u32, count: u32) -> &[MethodEntry]
    ensures { result.now ≡ entries_at table.now first count }
{
    let rest = &table[table.len().min(first as usize)..];
    &rest[..rest.len().min(count as usize)]
}

/// Makes one call.
pub fn perform<S: Store>(
    store: &mut S,
    table: &[MethodEntry],
    call: StoreCall,
) -> Result<StoreAnswer, StoreFault>
    ensures answer { result ≡ answer_to table.now (S.meaning store.old) call }
    ensures state { S.meaning store.new ≡ meaning_after table.now (S.meaning store.old) call }
{
    Ok(match call {
        StoreCall::ObjectCount => StoreAnswer::Number(store.object_count()),
        StoreCall::ObjectLimit => StoreAnswer::Number(store.object_limit()),
        StoreCall::MethodLimit => StoreAnswer::Number(store.method_limit()),
        StoreCall::Size(location) => StoreAnswer::Number(store.size(location)?),
        StoreCall::MethodAt(location, place) => {
            StoreAnswer::Method(store.method_at(location, place)?)
        }
        StoreCall::Find(location, label) => StoreAnswer::Place(store.find(location, label)?),
        StoreCall::Make { first, count, env } => {
            StoreAnswer::Location(store.make(entries_at(table, first, count), env)?)
        }
        StoreCall::Clone(location) => StoreAnswer::Location(store.clone_object(location)?),
        StoreCall::Update(location, place, closure) => {
            store.update(location, place, closure)?;
            StoreAnswer::Updated
        }
    })
}

/// Makes the calls in order, as many as there are places for answers, and says how many were made.
pub fn perform_all<S: Store>(
    store: &mut S,
    table: &[MethodEntry],
    calls: &[StoreCall],
    answers: &mut [Result<StoreAnswer, StoreFault>],
) -> usize
    ensures count { result ≡ min (length calls.now) (length answers.old) }
    ensures answers { answers.new ≡ answers_to table.now (S.meaning store.old) (take result calls.now) ++ drop result answers.old }
    ensures state { S.meaning store.new ≡ meaning_after_all table.now (S.meaning store.old) (take result calls.now) }
    ensures lasting { Lasts (S.meaning store.old) (S.meaning store.new) }
    ensures alike { (m : Meaning) → Alike m (S.meaning store.old) → (answers_to table.now m (take result calls.now) ≡ take result answers.new) × Alike (meaning_after_all table.now m (take result calls.now)) (S.meaning store.new) }
{
    let count = calls.len().min(answers.len());
    // By index: of what an adapter of `iter_mut` lends out a proof knows no element afterwards.
    for (i, call) in calls[..count].iter().enumerate() {
        answers[i] = perform(store, table, *call);
    }
    count
}
