//! The trial layer, and its trials.
ghost use Rattle.std.specs.Prelude.{◌≡◌, ◌+◌, ◌<◌, length, take};
ghost use Rattle.store.specs.Meaning.{closed};
ghost use Rattle.trial_layer.specs.Layers.{layer_meaning};
ghost use Rattle.trial_layer.specs.Laws.{PutBack};
ghost use Rattle.trial_layer.specs.Trials.{with_trial, open_result, opening, keep_result, kept, back_result, put_back, written, undone_by};

use crate::book::Book;
use crate::faults::TrialFault;
use crate::token::Token;
use store::store::Store;

/// Any store, and a book of the trials over it. What lies below is reached through the layer alone.
#[derive(Drop)]
pub struct TrialLayer<S> {
    pub(crate) below: S,
    pub(crate) book: Book,
}

impl<S: Store> TrialLayer<S> {
    /// A layer over a store, before any trial.
    pub fn new(below: S) -> TrialLayer<S>
        ensures { layer_meaning S.Store.meaning result ≡ with_trial (S.Store.meaning below) (closed 0) }
    {
        TrialLayer {
            below,
            book: Book::new(),
        }
    }

    /// Opens the next trial and hands out its token.
    pub fn open(&mut self) -> Result<Token, TrialFault>
        ensures answer { result ≡ open_result (layer_meaning S.Store.meaning self.old).trial }
        ensures state { layer_meaning S.Store.meaning self.new ≡ opening (layer_meaning S.Store.meaning self.old) }
    {
        self.book.open()
    }

    /// Ends the trial and leaves every object as it is.
    pub fn keep(&mut self, token: Token) -> Result<(), TrialFault>
        ensures answer { result ≡ keep_result (layer_meaning S.Store.meaning self.old).trial token.number }
        ensures state { layer_meaning S.Store.meaning self.new ≡ kept (layer_meaning S.Store.meaning self.old) token.number }
    {
        self.book.check(token.spend())?;
        self.book.close();
        Ok(())
    }

    /// Restores the old method noted at a place: the first step of undoing the notes up to it.
    fn undo_note(&mut self, place: usize)
        requires { place < length (written self.old.book) }
        ensures state { undone_by (take place (written self.old.book)) (layer_meaning S.Store.meaning self.new) ≡ undone_by (take (place + 1) (written self.old.book)) (layer_meaning S.Store.meaning self.old) }
        ensures book { self.new.book ≡ self.old.book }
    {
        let old = self.book.note_at(place);
        let _ = self.below.update(old.location, old.place, old.closure);
    }

    /// Undoes every update of the open trial, the newest first.
    fn undo_notes(&mut self)
        ensures state { layer_meaning S.Store.meaning self.new ≡ undone_by (written self.old.book) (layer_meaning S.Store.meaning self.old) }
        ensures book { self.new.book ≡ self.old.book }
    {
        for place in (0..self.book.len()).rev() {
            self.undo_note(place);
        }
    }

    /// Undoes every update of the open trial and ends it.
    fn undo_trial(&mut self)
        ensures { layer_meaning S.Store.meaning self.new ≡ with_trial (undone_by (written self.old.book) (layer_meaning S.Store.meaning self.old)) (closed self.old.book.last) }
    {
        self.undo_notes();
        self.book.close(); // nothing in it is left to undo
    }

    /// Ends the trial and restores the old method of each of its updates, the newest first. Refused, it hands the token back.
    pub fn put_back(&mut self, token: Token) -> Result<(), (Token, TrialFault)>
        ensures answer { result ≡ back_result (layer_meaning S.Store.meaning self.old).trial token }
        ensures state { layer_meaning S.Store.meaning self.new ≡ put_back (layer_meaning S.Store.meaning self.old) token.number }
        ensures back { PutBack (layer_meaning S.Store.meaning self.old) token result (layer_meaning S.Store.meaning self.new) }
    {
        if let Err(fault) = self.book.may_go_back(token.number()) {
            return Err((token, fault));
        }
        let _ = token.spend();
        self.undo_trial();
        Ok(())
    }
}
