//! Where an entry's methods are.
ghost use Rattle.std.specs.Prelude.{◌≡◌};
ghost use Rattle.sharing_store.specs.Views.{own_span, held_span};

use crate::entries::SharedEntry;
use store::layout::Span;

impl SharedEntry {
    // The space that is reserved for them.
    pub(crate) fn own_span(self) -> Span
        ensures { result ≡ own_span self }
    {
        Span {
            first: self.first,
            size: self.size,
        }
    }

    // Where they stand.
    pub(crate) fn held_span(self) -> Span
        ensures { result ≡ held_span self }
    {
        Span {
            first: self.held,
            size: self.size,
        }
    }
}
