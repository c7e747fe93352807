//! The table machine: what it reads, holds and answers, and its definition.
#![tactic(auto)]

pub mod answers;
pub mod laws;
pub mod state;
pub mod steps;
