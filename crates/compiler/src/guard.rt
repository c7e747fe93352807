//! The guard over the counts.
ghost use Rattle.std.specs.Prelude.{◌≡◌};

use calculus::code::Counts;

/// Holds the counts while a program is placed. When it goes out of scope it puts them back as they were, unless it was disarmed.
pub(crate) struct Restore<'a> {
    pub(crate) counts: &'a mut Counts,
    pub(crate) saved: Counts,
}

impl Drop for Restore<'_> {
    fn drop(self)
        ensures { self.exit.0.now ≡ self.entry.saved }
    {
        *self.counts = self.saved;
        let Restore {
            counts: _,
            saved: _,
        } = self;
    }
}

impl Restore<'_> {
    /// Leaves the counts as they are now.
    pub(crate) fn disarm(self)
        ensures { self.exit.0.now ≡ self.entry.counts.now }
    {
        let Restore {
            counts: _,
            saved: _,
        } = self;
    }
}
