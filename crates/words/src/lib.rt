//! A line as words, and words as numbers.
#![tactic(auto)]

pub mod numbers;
pub mod words;
