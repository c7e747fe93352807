//! The definitions that every other crate cites: rows, values, operation lists, refusals, and the bounded stack.
#![tactic(auto)]

pub mod area;
pub mod code;
pub mod lookup;
pub mod refusals;
pub mod rows;
pub mod stack;
pub mod values;
