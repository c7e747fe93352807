//! How a trial stands.

/// How the last trial of a layer stands.
#[derive(Clone, Copy, PartialEq, Eq, Debug)]
pub enum TrialState {
    Closed,
    Open,
    /// Open, and an update found the book full.
    Overrun,
}
