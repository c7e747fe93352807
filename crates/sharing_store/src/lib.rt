//! The sharing store: a clone reserves its methods, and reads those of what it clones until one of the two is updated.
#![tactic(auto)]

pub mod calls;
pub mod entries;
mod spans;
pub mod table;
