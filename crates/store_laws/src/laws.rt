//! The laws of a store's meaning. Each function's contract names one, and so has it proved.
ghost use Rattle.store_laws.specs.Laws.{FindsFirst, MakesLast, CopiesLast, UpdatesOne, ClonesApart, MakesInRoom, ClonesInRoom, FindsPlaces, RefusedInPeace, StaysUntilUpdated, EqualRuns};

/// What find, make, clone and update do, and that a clone and what it copies do not disturb each other.
pub fn calls_hold()
    ensures finds_first { FindsFirst }
    ensures makes_last { MakesLast }
    ensures copies_last { CopiesLast }
    ensures updates_one { UpdatesOne }
    ensures clones_apart { ClonesApart }
{}

/// What is refused, and that a refused call changes nothing.
pub fn refusals_hold()
    ensures makes_in_room { MakesInRoom }
    ensures clones_in_room { ClonesInRoom }
    ensures finds_places { FindsPlaces }
    ensures refused_in_peace { RefusedInPeace }
{}

/// What lasts over a list of calls, and that stores of equal meaning cannot be told apart by one.
pub fn runs_hold()
    ensures stays_until_updated { StaysUntilUpdated }
    ensures equal_runs { EqualRuns }
{}
