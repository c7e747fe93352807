//! Rows and values as words of a script: read, and written.
#![tactic(auto)]

pub mod read;
pub mod write;
