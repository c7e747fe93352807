//! How a trial layer refuses.
ghost use Rattle.std.specs.Prelude.{◌≡◌};
ghost use Rattle.trial_layer.specs.Faults.{trial_number};

/// Why a trial is not opened, kept or put back.
#[derive(Clone, Copy, PartialEq, Eq, Debug)]
pub enum TrialFault {
    /// A trial is open already.
    Open = 27,
    /// The last trial had the last number.
    NoNumber = 28,
    /// The token's number is not that of an open trial here.
    WrongToken = 29,
    /// The book has missed an update, so it cannot be put back.
    Overrun = 30,
}

impl TrialFault {
    /// The number by which the fault is known.
    pub fn number(self) -> u32
        ensures { result ≡ trial_number self }
    {
        self as u32
    }
}
