//! What a run comes upon, before it does anything about it.
use calculus::values::Value;
use store::closures::Closure;

/// What the operation at hand makes with the accumulator: a reduction that is not made yet.
#[derive(Clone, Copy)]
pub enum Redex {
    Object {
        first: u32,
        count: u32,
    },
    Select {
        receiver: Value,
        label: u16,
    },
    Update {
        receiver: Value,
        label: u16,
        list: u32,
    },
    Clone {
        receiver: Value,
    },
    Let {
        value: Value,
        list: u32,
    },
}

/// What is next.
#[derive(Clone, Copy)]
pub enum Due {
    /// A silent transition: this value comes into the accumulator.
    Fill(Value),
    /// A silent transition: the list is at its end, and the newest frame is taken up.
    Return,
    /// The last list is at its end, with this value.
    Done(Value),
    Reduce(Redex),
}

/// A reduction that can be made, but for the limits.
#[derive(Clone, Copy)]
pub enum Action {
    /// A new object of these method entries.
    Make {
        first: u32,
        count: u32,
    },
    /// The method's closure is entered, with its receiver.
    Call {
        receiver: Value,
        closure: Closure,
    },
    /// The method at this place gets this list for its body.
    Put {
        location: u32,
        place: u32,
        list: u32,
    },
    /// A copy of the object at this location.
    Copied {
        location: u32,
    },
    /// The let's body is entered, with the value.
    Bind {
        value: Value,
        list: u32,
    },
}
