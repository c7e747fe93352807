//! The machine.
use machine_steps::state::State;

/// A machine: its state, with the calls of this crate, which cannot be methods of a type of another one.
/// The state may hold anything: whatever a call reads it looks at first.
#[derive(Drop)]
pub struct Machine<'a> {
    pub state: State<'a>,
}
