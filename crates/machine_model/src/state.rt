//! What the machine holds.
use calculus::values::Value;

/// A cell: a value, and the environment that goes on from it.
/// Environment 0 is empty; environment e is the value in cell e - 1, then what that cell names.
#[derive(Clone, Copy)]
pub struct Cell {
    pub value: Value,
    pub parent: u32,
}

/// Where a list goes on, and over which environment.
#[derive(Clone, Copy, PartialEq, Eq, Debug, Default)]
pub struct Frame {
    pub list: u32,
    /// The next operation, counted from 0 in its list.
    pub next: u32,
    pub env: u32,
}

/// The transitions, and the reductions by kind, since the start of a program.
#[derive(Clone, Copy, PartialEq, Eq, Debug, Default)]
pub struct Report {
    pub transitions: u64,
    pub objects: u32,
    pub selects: u32,
    pub updates: u32,
    pub clones: u32,
    pub lets: u32,
}

/// What has become of the program last started.
#[derive(Clone, Copy, PartialEq, Eq, Debug, Default)]
pub enum Progress {
    /// None was started yet.
    #[default]
    Unused,
    Running,
    Ended,
}

/// The registers.
#[derive(Clone, Copy, Default)]
pub struct Registers {
    pub at: Frame,
    /// Empty, or the value that the next operation is about.
    pub accumulator: Option<Value>,
    /// How many reductions the program may still make.
    pub allowance: u32,
    pub report: Report,
    pub progress: Progress,
}
