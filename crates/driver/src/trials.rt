//! The trial calls, over each kind of store.
use answers::answers::{Answer, Refused};
use script::calls::TrialCall;
use session::session::Session;
use store::store::Store;
use trial_layer::faults::TrialFault;
use trial_layer::layer::TrialLayer;
use trial_layer::token::Token;

/// What is held between the trial calls of a script, over a kind of store.
pub trait Trials<S: Store>: Sized {
    /// Before the first call no trial is open.
    fn none_open() -> Self;

    /// The answer to a trial call; none where the store is no trial layer.
    fn call(
        &mut self,
        session: &mut Session<'_, S>,
        call: TrialCall,
    ) -> Option<Result<Answer, Refused>>;

    /// A trial that is still open when the script ends is kept.
    fn finish(self, session: &mut Session<'_, S>);
}

/// A store that is no trial layer has none.
#[derive(Drop)]
pub struct NoTrials;

impl<S: Store> Trials<S> for NoTrials {
    fn none_open() -> NoTrials {
        NoTrials
    }

    fn call(
        &mut self,
        _session: &mut Session<'_, S>,
        _call: TrialCall,
    ) -> Option<Result<Answer, Refused>> {
        None
    }

    fn finish(self, _session: &mut Session<'_, S>) {}
}

/// The token of the trial that the script opened, if it is open.
pub struct Held(Option<Token>);

impl<S: Store> Trials<TrialLayer<S>> for Held {
    fn none_open() -> Held {
        Held(None)
    }

    fn call(
        &mut self,
        session: &mut Session<'_, TrialLayer<S>>,
        call: TrialCall,
    ) -> Option<Result<Answer, Refused>> {
        let answer = match call {
            TrialCall::Open => self.open(session),
            TrialCall::Keep { trial } => self.keep(session, trial),
            TrialCall::PutBack { trial } => self.put_back(session, trial),
        };
        Some(answer.map_err(Refused::from))
    }

    fn finish(self, session: &mut Session<'_, TrialLayer<S>>) {
        let Held(token) = self;
        spend(session, token);
    }
}

/// Spends a token: its trial is kept if it is open, and nothing happens otherwise.
fn spend<S: Store>(session: &mut Session<'_, TrialLayer<S>>, token: Option<Token>) {
    if let Some(token) = token {
        let _ = session.keep(token);
    }
}

impl Held {
    fn open<S: Store>(
        &mut self,
        session: &mut Session<'_, TrialLayer<S>>,
    ) -> Result<Answer, TrialFault> {
        let token = session.open()?;
        let number = token.number();
        spend(session, self.0.replace(token));
        Ok(Answer::Trial(number))
    }

    /// The token of this number: the one that is held, or one made for it; 0 is no trial's number.
    fn token_of(&mut self, trial: u32) -> Result<Token, TrialFault> {
        self.0
            .take_if(|token| token.number() == trial)
            .or_else(|| Token::of(trial))
            .ok_or(TrialFault::WrongToken)
    }

    fn keep<S: Store>(
        &mut self,
        session: &mut Session<'_, TrialLayer<S>>,
        trial: u32,
    ) -> Result<Answer, TrialFault> {
        let token = self.token_of(trial)?;
        session.keep(token)?;
        Ok(Answer::Kept)
    }

    /// A token that is handed back is held again if it is that of the open trial, and spent otherwise, which has no effect.
    fn put_back<S: Store>(
        &mut self,
        session: &mut Session<'_, TrialLayer<S>>,
        trial: u32,
    ) -> Result<Answer, TrialFault> {
        let token = self.token_of(trial)?;
        match session.put_back(token) {
            Ok(()) => Ok(Answer::Restored),
            Err((token, TrialFault::Overrun)) => {
                spend(session, self.0.replace(token));
                Err(TrialFault::Overrun)
            }
            Err((token, fault)) => {
                spend(session, Some(token));
                Err(fault)
            }
        }
    }
}
