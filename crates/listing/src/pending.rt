//! Lists that are begun and not ended.
ghost use Rattle.std.specs.Prelude.{◌≡◌, ◌+◌, ◌^◌, ◌<◌};
ghost use Rattle.listing.specs.Listing.{passed, next_method};

/// A list whose own rows are written: the operation and the method whose body comes next.
#[derive(Clone, Copy, Default)]
pub struct Pending {
    pub list: u32,
    pub next: u32,
    pub method: u32,
}

/// What a pending list has next.
#[derive(Clone, Copy)]
pub enum Step {
    /// No operation is left.
    Ended,
    /// An operation without a body, or whose bodies are written.
    Passed,
    /// A method: its label, and the list of its body.
    Method(u16, u32),
    /// The list of a follower's body.
    Body(u32),
}

impl Pending {
    /// The same list, with the operation at hand passed.
    pub(crate) fn pass(self) -> Pending
        requires { self.next + 1 < 2 ^ 32 }
        ensures { result ≡ passed self }
    {
        Pending {
            next: self.next + 1,
            ..self
        }
    }

    /// The same list, with the method at hand passed.
    pub(crate) fn pass_method(self) -> Pending
        requires { self.method + 1 < 2 ^ 32 }
        ensures { result ≡ next_method self }
    {
        Pending {
            method: self.method + 1,
            ..self
        }
    }
}
