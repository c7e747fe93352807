//! The flat store: a clone copies the methods of what it clones.
#![tactic(auto)]

pub mod calls;
pub mod table;
