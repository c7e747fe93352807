//! What a run works on.
use calculus::stack::Stack;
use machine_model::state::{Cell, Frame, Registers};

/// Registers, cells and return frames. They may hold anything: whatever a step reads it looks at first.
/// The code and the store stay parameters: a struct of both would hold the caller's `&mut` store, and each step would have to promise that it is the same one still.
#[derive(Drop)]
pub struct State<'a> {
    pub registers: Registers,
    pub cells: Stack<'a, Cell>,
    pub frames: Stack<'a, Frame>,
}
