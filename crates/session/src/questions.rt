//! What can be asked of a session. No question changes anything.
ghost use Rattle.std.specs.Prelude.{slice_get, ◌≡◌, ℕ, ◌≤◌, true, false, length, take, drop, IfOk, Some, MatchOption};
ghost use Rattle.calculus.specs.Text.{text_of, used, rooms, within};
ghost use Rattle.listing.specs.Areas.{told, lent_rooms};
ghost use Rattle.listing.specs.Back.{answer};
ghost use Rattle.machine.specs.Machine.{state_of};
ghost use Rattle.store.specs.Meaning.{size_of, method_at};

use crate::session::Session;
use calculus::code::Code;
use calculus::refusals::Refusal;
use calculus::rows::Row;
use listing::list_back;
use listing::pending::Pending;
use machine_model::state::Cell;
use store::closures::Method;
use store::faults::StoreFault;
use store::store::Store;

impl<'a, S: Store> Session<'a, S> {
    /// Lists a program back as rows: how many it wrote.
    pub fn list(
        &self,
        program: u32,
        rows: &mut [Row],
        stack: &mut [Pending],
    ) -> Result<u32, Refusal>
        ensures answer { Some (told result (λ n. take n rows.new)) ≡ answer self.now.area.tables self.now.area.counts (lent_rooms rows.old stack.old) program }
        ensures kept { IfOk result (λ n. (n ≤ length rows.new) × (drop n rows.new ≡ drop n rows.old)) }
    {
        list_back(program, &self.area, rows, stack)
    }

    /// The used parts of the code area.
    pub fn code(&self) -> Code<'_>
        ensures { text_of result ≡ used self.now.area.tables self.now.area.counts }
    {
        self.area.used().unwrap()
    }

    /// How many objects there are.
    pub fn object_count(&self) -> u32
        ensures { result ≡ length (S.meaning self.now.store).objects }
    {
        self.store.object_count()
    }

    /// How many methods the object at a location has.
    pub fn size(&self, location: u32) -> Result<u32, StoreFault>
        ensures { result ≡ size_of (S.meaning self.now.store) location }
    {
        self.store.size(location)
    }

    /// The label and the closure at a place of the object at a location.
    pub fn method_at(&self, location: u32, place: u32) -> Result<Method, StoreFault>
        ensures { result ≡ method_at (S.meaning self.now.store) location place }
    {
        self.store.method_at(location, place)
    }

    /// The cell at a place, from 0, if it is used.
    pub fn cell(&self, place: usize) -> Option<Cell>
        ensures { result ≡ slice_get (state_of self.now.machine).cells place }
    {
        self.machine.state.cells.get(place)
    }
}
