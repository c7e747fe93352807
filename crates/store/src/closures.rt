//! What a store holds: methods, each a label and a closure.

/// A list of operations, and the environment that it is closed over. A store does not interpret either number.
#[derive(Clone, Copy, PartialEq, Eq, Debug, Default)]
pub struct Closure {
    pub list: u32,
    pub env: u32,
}

/// A method of an object.
#[derive(Clone, Copy, PartialEq, Eq, Debug, Default)]
pub struct Method {
    pub label: u16,
    pub closure: Closure,
}

/// The closure that stood at a place of an object before an update: a note in the book of a trial.
#[derive(Clone, Copy, PartialEq, Eq, Debug, Default)]
pub struct OldMethod {
    pub location: u32,
    pub place: u32,
    pub closure: Closure,
}
