//! Trials over any store: try updates, then keep them or put them back.
#![tactic(auto)]

mod book;
mod book_methods;
pub mod calls;
pub mod faults;
pub mod laws;
pub mod layer;
mod notes;
mod state;
#[cfg(test)]
mod tests;
pub mod token;
