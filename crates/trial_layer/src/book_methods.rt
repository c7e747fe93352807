//! The book's own methods.
ghost use Rattle.std.specs.Prelude.{slice_get, ◌≡◌, ◌<◌, length, take, Some, Ok, Err};
ghost use Rattle.calculus.specs.Places.{if_some};
ghost use Rattle.store.specs.Meaning.{closed, noted};
ghost use Rattle.trial_layer.specs.Trials.{written, trial_of, open_result, trial_opened, keep_result, back_fault};

use crate::book::Book;
use crate::faults::TrialFault;
use crate::notes::{BOOK_ROOM, NoteTable};
use crate::state::TrialState;
use crate::token::Token;
use store::closures::OldMethod;

impl Book {
    /// A book before any trial.
    pub fn new() -> Book
        ensures { trial_of result ≡ closed 0 }
    {
        Book {
            last: 0,
            state: TrialState::Closed,
            notes: NoteTable::new(),
            count: 0,
        }
    }

    /// Notes the old method of an update, while a trial is open. A full book notes it no more.
    pub fn note(&mut self, old: OldMethod)
        ensures { trial_of self.new ≡ noted old (trial_of self.old) }
    {
        if let TrialState::Open = self.state {
            if self.count < BOOK_ROOM {
                self.notes.store(self.count, old);
                self.count += 1;
            } else {
                self.state = TrialState::Overrun;
            }
        }
    }

    /// How many old methods it counts.
    pub fn len(&self) -> usize
        ensures count { result ≡ length (written self.now) }
        ensures all { take result (written self.now) ≡ written self.now }
    {
        self.count
    }

    /// The old method at a place, the oldest at 0.
    pub fn note_at(&self, place: usize) -> OldMethod
        requires { place < length (written self.now) }
        ensures { Some result ≡ slice_get (written self.now) place }
    {
        self.notes.get(place)
    }

    /// Begins the next trial.
    pub fn open(&mut self) -> Result<Token, TrialFault>
        ensures answer { result ≡ open_result (trial_of self.old) }
        ensures state { trial_of self.new ≡ trial_opened (trial_of self.old) }
    {
        if self.state != TrialState::Closed {
            return Err(TrialFault::Open);
        }
        self.last = self.last.checked_add(1).ok_or(TrialFault::NoNumber)?;
        self.state = TrialState::Open;
        Ok(Token::numbered(self.last))
    }

    /// Refuses a number unless a trial with it is open.
    pub fn check(&self, number: u32) -> Result<(), TrialFault>
        ensures { result ≡ keep_result (trial_of self.now) number }
    {
        if self.state != TrialState::Closed && self.last == number {
            Ok(())
        } else {
            Err(TrialFault::WrongToken)
        }
    }

    /// Refuses a number unless the trial with it is open and can be put back.
    pub fn may_go_back(&self, number: u32) -> Result<(), TrialFault>
        ensures { result ≡ if_some (back_fault (trial_of self.now) number) (λ fault. Err fault) (Ok tt) }
    {
        self.check(number)?;
        if self.state == TrialState::Overrun {
            return Err(TrialFault::Overrun);
        }
        Ok(())
    }

    /// Ends the trial and empties the book.
    pub fn close(&mut self)
        ensures { trial_of self.new ≡ closed self.old.last }
    {
        self.state = TrialState::Closed;
        self.count = 0;
    }
}
