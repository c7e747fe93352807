//! How a store refuses.
ghost use Rattle.std.specs.Prelude.{◌≡◌};
ghost use Rattle.store.specs.Faults.{store_number};

/// Why a store refuses a call.
#[derive(Clone, Copy, PartialEq, Eq, Debug)]
pub enum StoreFault {
    /// The objects have reached their limit.
    ObjectsFull = 25,
    /// The sizes of all objects would pass the method limit.
    MethodsFull = 26,
    /// No object has this location.
    NoLocation = 31,
    /// The object has no method at this place.
    NoPlace = 32,
}

impl StoreFault {
    /// The number by which the fault is known.
    pub fn number(self) -> u32
        ensures { result ≡ store_number self }
    {
        self as u32
    }
}
