//! The session script: a line of text into a setting or a call.
#![tactic(auto)]

pub mod calls;
mod keywords;
pub mod lines;
mod named;
pub mod settings;
