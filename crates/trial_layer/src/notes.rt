//! A plain table of old methods.
ghost use Rattle.std.specs.Prelude.{slice_get, ◌≡◌, ◌<◌, length, Some, slice_set};

use store::closures::OldMethod;

/// A book counts no more old methods than this.
pub const BOOK_ROOM: usize = 256;

/// The rows of a book: a plain table of as many as it counts at most, since nothing is allocated here.
#[derive(Drop)]
pub struct NoteTable {
    rows: [OldMethod; BOOK_ROOM],
    ghost long: { length rows ≡ 256 },
}

impl NoteTable {
    /// A table whose rows hold nothing yet.
    pub fn new() -> NoteTable {
        NoteTable {
            rows: [OldMethod::default(); BOOK_ROOM],
        }
    }

    /// The old method in a row.
    pub fn get(&self, row: usize) -> OldMethod
        requires { row < 256 }
        ensures { Some result ≡ slice_get self.now.rows row }
    {
        self.rows[row]
    }

    /// Writes an old method into a row.
    pub fn store(&mut self, row: usize, old: OldMethod)
        requires { row < 256 }
        ensures { self.new.rows ≡ slice_set self.old.rows row old }
    {
        self.rows[row] = old;
    }
}
