//! Reading an entry that may not be there.
ghost use Rattle.std.specs.Prelude.{slice_get, ◌≡◌};

/// The entry at a place of a slice, if there is one.
pub fn entry_at<T: Copy>(entries: &[T], place: usize) -> Option<T>
    ensures { result ≡ slice_get entries.now place }
{
    entries.get(place).copied()
}
