//! What a redex asks of the store, and 19 to 21.
ghost use Rattle.std.specs.Prelude.{◌≡◌, ℕ, ℤ, ◌+◌, ◌≤◌, length, MatchResult};
ghost use Rattle.store.specs.Meaning.{find_in, method_at};
ghost use Rattle.calculus.specs.declared.values.Value.TheVariants.{Figure, Location};
ghost use Rattle.calculus.specs.Text.{text_of};
ghost use Rattle.machine_model.specs.declared.answers.Fault.TheVariants as fault;
ghost use Rattle.machine_model.specs.Reduce.{decided};

use calculus::code::Code;
use calculus::values::Value;
use machine_model::answers::Fault;
use machine_model::steps::{Action, Redex};
use store::store::Store;

/// The location of an object, where the value is one.
fn object_at(value: Value) -> Result<u32, Fault>
    ensures { MatchResult result (λ l. value ≡ Location l) (λ f. (f ≡ fault.FigureTaken) × ((k : ℤ) × (value ≡ Figure k))) }
{
    match value {
        Value::Figure(_) => Err(Fault::FigureTaken),
        Value::Location(location) => Ok(location),
    }
}

/// What is to be done about a redex, but for the limits.
pub fn decide<S: Store>(code: &Code<'_>, store: &S, redex: Redex) -> Result<Action, Fault>
    ensures { result ≡ decided (text_of code.now) (S.meaning store.now) redex }
{
    match redex {
        Redex::Object { first, count } => {
            if first as usize + count as usize <= code.methods.len() {
                Ok(Action::Make { first, count })
            } else {
                Err(Fault::Astray)
            }
        }
        Redex::Select { receiver, label } => {
            let location = object_at(receiver)?;
            let place = store.find(location, label)?.ok_or(Fault::LabelMissing)?;
            let method = store.method_at(location, place)?;
            Ok(Action::Call {
                receiver,
                closure: method.closure,
            })
        }
        Redex::Update {
            receiver,
            label,
            list,
        } => {
            let location = object_at(receiver)?;
            let place = store.find(location, label)?.ok_or(Fault::LabelMissing)?;
            Ok(Action::Put {
                location,
                place,
                list,
            })
        }
        Redex::Clone { receiver } => {
            let location = object_at(receiver)?;
            store.size(location)?;
            Ok(Action::Copied { location })
        }
        Redex::Let { value, list } => Ok(Action::Bind { value, list }),
    }
}
