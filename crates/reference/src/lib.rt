//! The reference of a session, in the words of the calculus: terms, objects and reductions, with the limits.
#![tactic(auto)]

ghost use Rattle.reference.specs.Laws.{MovesReduce, Decided, NeverAstray, EndsShow, Unique};

/// The moves of the reference are the reductions of the calculus, of the same kinds.
pub fn moves_reduce()
    ensures { MovesReduce }
{}

/// A run's answer is the first of the conditions, in their order, that holds; 19 is never one.
pub fn answers_are_decided()
    ensures { (Decided) × (NeverAstray) }
{}

/// Done comes at a value, 20 and 21 where the term is stuck, and every other answer where it has a reduction.
pub fn answers_show()
    ensures { EndsShow }
{}

/// A run of the reference has one outcome.
pub fn runs_are_unique()
    ensures { Unique }
{}
