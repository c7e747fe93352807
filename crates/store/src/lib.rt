//! What a store of objects means, and the calls that every kind of store has.
#![tactic(auto)]

mod area_methods;
pub mod areas;
pub mod closures;
pub mod faults;
pub mod layout;
pub mod store;
