//! The trial calls of a session whose store is a trial layer.
ghost use Rattle.std.specs.Prelude.{◌≡◌};
ghost use Rattle.machine.specs.Machine.{state_of};
ghost use Rattle.reference.specs.Calls as call;
ghost use Rattle.session.specs.Steps.{Step};
ghost use Rattle.trial_layer.specs.Layers.{layer_meaning};
ghost use Rattle.trial_layer.specs.Trials.{open_result, opening, keep_result, kept, back_result, put_back};

use crate::session::Session;
use store::store::Store;
use trial_layer::faults::TrialFault;
use trial_layer::layer::TrialLayer;
use trial_layer::token::Token;

impl<'a, S: Store> Session<'a, TrialLayer<S>> {
    /// Opens the next trial and hands out its token.
    pub fn open(&mut self) -> Result<Token, TrialFault>
        ensures answer { result ≡ open_result (layer_meaning S.Store.meaning self.old.store).trial }
        ensures store { layer_meaning S.Store.meaning self.new.store ≡ opening (layer_meaning S.Store.meaning self.old.store) }
        ensures machine { state_of self.new.machine ≡ state_of self.old.machine }
        ensures area { self.new.area ≡ self.old.area }
        ensures step { Step (layer_meaning S.Store.meaning) call.open_trial self.old result self.new }
    {
        self.store.open()
    }

    /// Ends the trial and leaves every object as it is.
    pub fn keep(&mut self, token: Token) -> Result<(), TrialFault>
        ensures answer { result ≡ keep_result (layer_meaning S.Store.meaning self.old.store).trial token.number }
        ensures store { layer_meaning S.Store.meaning self.new.store ≡ kept (layer_meaning S.Store.meaning self.old.store) token.number }
        ensures machine { state_of self.new.machine ≡ state_of self.old.machine }
        ensures area { self.new.area ≡ self.old.area }
        ensures step { Step (layer_meaning S.Store.meaning) (call.keep token.number) self.old result self.new }
    {
        self.store.keep(token)
    }

    /// Ends the trial and restores the old method of each of its updates. Refused, it hands the token back.
    pub fn put_back(&mut self, token: Token) -> Result<(), (Token, TrialFault)>
        ensures answer { result ≡ back_result (layer_meaning S.Store.meaning self.old.store).trial token }
        ensures store { layer_meaning S.Store.meaning self.new.store ≡ put_back (layer_meaning S.Store.meaning self.old.store) token.number }
        ensures machine { state_of self.new.machine ≡ state_of self.old.machine }
        ensures area { self.new.area ≡ self.old.area }
        ensures step { Step (layer_meaning S.Store.meaning) (call.put_back token.number) self.old result self.new }
    {
        self.store.put_back(token)
    }
}
