//! Answers as text.
#![tactic(auto)]

pub mod answers;
pub mod operations;
