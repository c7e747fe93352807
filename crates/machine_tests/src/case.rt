//! What a case is played on.
use crate::areas::Area;
use machine::machine::Machine;

/// The code area with the givens of the next start, the machine, and the store.
#[derive(Drop)]
pub struct Case<'m, S> {
    pub area: Area,
    pub machine: Machine<'m>,
    pub store: S,
}
