//! What holds of every store: lists of calls over any store, and the laws of the meaning.
#![tactic(auto)]

pub mod laws;
pub mod runs;
