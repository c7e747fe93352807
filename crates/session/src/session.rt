//! What a session holds.
ghost use Rattle.std.specs.Prelude.{◌≡◌, true};
ghost use Rattle.calculus.specs.Text.{rooms, within};

use calculus::code::CodeArea;
use machine::machine::Machine;

/// A code area of which no count is past its table, a machine with its cells and frames, and a store.
#[derive(Drop)]
pub struct Session<'a, S> {
    pub(crate) area: CodeArea<'a>,
    pub(crate) machine: Machine<'a>,
    pub(crate) store: S,
    ghost whole: { within area.counts (rooms area.tables) ≡ true },
}
