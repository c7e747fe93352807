//! A session: one code area, machine and store, all begun empty, and reached by its calls alone.
#![tactic(auto)]

pub mod calls;
pub mod questions;
pub mod session;
pub mod trials;
