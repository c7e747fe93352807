//! Laws of the definition.
ghost use Rattle.machine_model.specs.Laws.{Rests, Resumes, Counts, Fits};
ghost use Rattle.machine_model.specs.Examples.{Marked};

/// Once the machine has settled, no silent transition is due.
pub fn settled_rests()
    ensures { Rests }
{}

/// A run that is paused and taken up again is one run.
pub fn runs_resume()
    ensures { Resumes }
{}

/// Each reduction is one of the allowance; a run makes no more than it was asked for, and exactly so many where it pauses.
pub fn runs_count()
    ensures { Counts }
{}

/// After a start no count can pass its limit, however the program is run.
pub fn counts_fit()
    ensures { Fits }
{}

/// The marked examples come out as they should.
pub fn marked_examples()
    ensures { Marked }
{}
