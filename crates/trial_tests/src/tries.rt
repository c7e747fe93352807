//! A whole trial.
ghost use Rattle.std.specs.Prelude.{min, length, take};
ghost use Rattle.trial_layer.specs.Layers.{layer_meaning};
ghost use Rattle.trial_tests.specs.Tries.{Tried};

use calculus::code::MethodEntry;
use store::faults::StoreFault;
use store::store::Store;
use store_laws::runs::{StoreAnswer, StoreCall, perform_all};
use trial_layer::faults::TrialFault;
use trial_layer::layer::TrialLayer;

/// Makes the calls on trial, as many as there are places for answers, and puts them back. What cannot be put back is kept.
pub fn try_calls<S: Store>(
    layer: &mut TrialLayer<S>,
    table: &[MethodEntry],
    calls: &[StoreCall],
    answers: &mut [Result<StoreAnswer, StoreFault>],
) -> Result<(), TrialFault>
    ensures { Tried table.now (take (min (length calls.now) (length answers.old)) calls.now) (layer_meaning S.Store.meaning layer.old) result (layer_meaning S.Store.meaning layer.new) }
{
    let token = layer.open()?;
    let _ = perform_all(layer, table, calls, answers);
    match layer.put_back(token) {
        Ok(()) => Ok(()),
        Err((token, fault)) => {
            let _ = layer.keep(token);
            Err(fault)
        }
    }
}
