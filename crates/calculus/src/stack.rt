//! A bounded stack over a lent slice: return frames in a run, pending lists in listing back.
ghost use Rattle.std.specs.Prelude.{slice_get, ◌≡◌, ℕ, ◌+◌, ◌-◌, ◌*◌, ◌<◌, ◌≤◌, min, List, [], ◌∷◌, ◌++◌, length, MatchOption, MatchResult, nat_lt};

use crate::area::counted_len;
use crate::lookup::entry_at;

/// An area of more entries than this counts as this long.
pub const MOST_ENTRIES: usize = 1_048_576;

/// The entries that a stack holds are the first `count` of the lent slice, the top last.
#[derive(Drop)]
pub struct Stack<'a, T> {
    entries: &'a mut [T],
    count: usize,
    ghost fits: { count ≤ length entries.now },
}

impl<'a, T: Copy> Stack<'a, T> {
    ghost use Rattle.calculus.specs.Held.{counted, laid, held, room};

    /// An empty stack over the slice.
    pub fn new(entries: &'a mut [T]) -> Stack<'a, T>
        ensures laid { laid result ≡ [] }
        ensures held { held result ≡ [] }
        ensures room { room result ≡ counted (length entries.old) }
    {
        Stack { entries, count: 0 }
    }

    /// How many entries it holds.
    pub fn len(&self) -> usize
        ensures laid { result ≡ length (laid self.now) }
        ensures held { result ≡ length (held self.now) }
        ensures least { result ≡ min self.now.count (length self.now.entries.now) }
    {
        self.count // never past the slice
    }

    /// How many entries it can hold.
    pub fn room(&self) -> usize
        ensures { result ≡ room self.now }
    {
        counted_len(self.entries.len()) as usize
    }

    /// Whether one more finds room.
    pub fn has_room(&self) -> bool
        ensures laid { result ≡ nat_lt (length (laid self.now)) (room self.now) }
        ensures held { result ≡ nat_lt (length (held self.now)) (room self.now) }
    {
        self.len() < self.room()
    }

    /// The entry at a place, the oldest at 0.
    pub fn get(&self, place: usize) -> Option<T>
        ensures { result ≡ slice_get (laid self.now) place }
    {
        entry_at(&self.entries[..self.len()], place)
    }

    /// Puts `x` on top of a stack that has room.
    fn put(&mut self, x: T)
        requires { length (laid self.old) < room self.old }
        ensures laid { laid self.new ≡ laid self.old ++ (x ∷ []) }
        ensures held { held self.new ≡ x ∷ held self.old }
        ensures room { room self.new ≡ room self.old }
    {
        let len = self.len();
        self.entries[len] = x;
        self.count = len + 1;
    }

    /// Puts `x` on top, or hands it back where the stack is full.
    pub fn push(&mut self, x: T) -> Result<(), T>
        ensures cases { MatchResult result
            (λ _. (length (laid self.old) < room self.old) × (laid self.new ≡ laid self.old ++ (x ∷ [])) × (held self.new ≡ x ∷ held self.old))
            (λ e. (e ≡ x) × (room self.old ≤ length (laid self.old)) × (laid self.new ≡ laid self.old) × (held self.new ≡ held self.old)) }
        ensures room { room self.new ≡ room self.old }
    {
        if !self.has_room() {
            return Err(x);
        }
        self.put(x);
        Ok(())
    }

    /// Takes the top entry.
    pub fn pop(&mut self) -> Option<T>
        ensures held { MatchOption result
            ((held self.old ≡ []) × (held self.new ≡ []))
            (λ x. held self.old ≡ x ∷ held self.new) }
        ensures room { room self.new ≡ room self.old }
    {
        let last = self.len().checked_sub(1)?;
        self.count = last;
        Some(self.entries[last])
    }

    /// Lets every entry go.
    pub fn clear(&mut self)
        ensures held { held self.new ≡ [] }
        ensures room { room self.new ≡ room self.old }
    {
        self.count = 0;
    }
}
