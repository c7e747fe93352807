//! The book of a layer's trials.
ghost use Rattle.std.specs.Prelude.{◌≡◌, ◌≤◌, true};
ghost use Rattle.trial_layer.specs.States.{is_blank};

use crate::notes::NoteTable;
use crate::state::TrialState;

/// The last trial's number and how it stands, and the old methods of its updates: the first `count` notes, the oldest first.
/// Between trials it is empty.
#[derive(Drop)]
pub struct Book {
    pub(crate) last: u32,
    pub(crate) state: TrialState,
    pub(crate) notes: NoteTable,
    pub(crate) count: usize,
    ghost within: { count ≤ 256 },
    ghost blank: { is_blank state count ≡ true },
}
