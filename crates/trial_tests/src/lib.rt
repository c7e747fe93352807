//! A whole trial as a caller has it, and trials on examples, over both kinds of store and over a layer on each.
#![tactic(auto)]

#[cfg(test)]
mod tests;
pub mod tries;
