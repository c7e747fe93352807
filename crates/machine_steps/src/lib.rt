//! The steps of a run over any store: the silent transitions, the decision on a redex, and the reductions.
//!
//! They are the machine's own. Each asks that no count can pass its limit, which the machine sees to once for a whole run.
//! That is no invariant of `State`: it may hold anything when a call is made.
#![tactic(auto)]

pub mod deciding;
pub mod fetching;
pub mod reducing;
pub mod settling;
pub mod state;
