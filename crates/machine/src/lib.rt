//! The machine that runs operation lists over any store.
#![tactic(auto)]

pub mod machine;
pub mod running;
pub mod starting;
