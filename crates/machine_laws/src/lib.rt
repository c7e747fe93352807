//! The laws of the table machine: what it holds stands for the machine on trees, and what it does is what that machine does.
#![tactic(auto)]

ghost use Rattle.machine_laws.specs.Settling.{Settles};
ghost use Rattle.machine_laws.specs.Once.{StandsOnce};
ghost use Rattle.machine_laws.specs.Reducing.{Judges};
ghost use Rattle.machine_laws.specs.Running.{RunsStand, DoneCounts};
ghost use Rattle.machine_laws.specs.Starting.{StartsStand};

/// Over tables that stand for trees, the silent transitions are those of the machine on trees, and as many as are reported.
pub fn settles()
    ensures { Settles }
{}

/// What a machine or a store stands for is one thing.
pub fn stands_once()
    ensures { StandsOnce }
{}

/// Each reduction is the transition of its kind of the machine on trees, over the store that the meaning stands for; it is refused
/// by the limits alone, and by 19 only where the term is not closed or not within its store.
pub fn judges()
    ensures { Judges }
{}

/// Whatever a run does from a state that stands, the machine on trees does, with as many transitions as are reported; 19 is never met.
/// With done, the transitions since the start are 1 + 3 × (selects + lets) + updates + clones.
pub fn runs_stand()
    ensures { (RunsStand) × (DoneCounts) }
{}

/// A program that is started stands for the initial state of its term's translation, with the givens for its environment.
pub fn starts_stand()
    ensures { StartsStand }
{}
