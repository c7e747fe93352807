//! Values.

/// A figure (a signed number), or the location of an object.
#[derive(Clone, Copy)]
pub enum Value {
    Figure(i64),
    Location(u32),
}
