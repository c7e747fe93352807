//! A listing under way, and the rows of one list.
ghost use Rattle.std.specs.Prelude.{◌≡◌, ◌≤◌, length};
ghost use Rattle.calculus.specs.Held.{counted, held};
ghost use Rattle.calculus.specs.Text.{text_of};

use crate::pending::Pending;
use crate::reading::row_at;
use calculus::area::counted_len;
use calculus::code::{Code, ListEntry};
use calculus::refusals::Refusal;
use calculus::rows::Row;
use calculus::stack::Stack;

/// A listing under way: the code that is read, the lists that are begun and not ended, and the rows written so far,
/// which are the first `count` of a lent area (no `Stack`, since the lender is also told what lies past them).
#[derive(Drop)]
pub(crate) struct Listing<'a, 'p> {
    pub(crate) code: Code<'a>,
    pub(crate) pending: &'a mut Stack<'p, Pending>,
    area: &'a mut [Row],
    count: usize,
    ghost fits: { count ≤ counted (length area.now) },
}

impl<'a, 'p> Listing<'a, 'p> {
    ghost use Rattle.listing.specs.Listing.{put, pended, written, begun};
    ghost use Rattle.listing.specs.Areas.{row_room, rooms, rows_in, state_of, told, Keeps};

    /// A listing that has not begun.
    pub(crate) fn new(
        code: Code<'a>,
        pending: &'a mut Stack<'p, Pending>,
        area: &'a mut [Row],
    ) -> Listing<'a, 'p>
        ensures code { result.code ≡ code.entry }
        ensures pending { result.pending.now ≡ pending.old }
        ensures same_area { result.area.ghost_name ≡ area.entry.ghost_name }
        ensures area { result.area.now ≡ area.old }
        ensures count { result.count ≡ 0 }
    {
        Listing {
            code,
            pending,
            area,
            count: 0,
        }
    }

    /// How many rows are written.
    pub(crate) fn count(&self) -> u32
        ensures { result ≡ self.now.count }
    {
        self.count as u32
    }

    /// Writes a row, if it finds room.
    pub(crate) fn put(&mut self, row: Row) -> Result<(), Refusal>
        ensures answer { told result (λ _. rows_in self.new) ≡ put (row_room self.old) (rows_in self.old) row }
        ensures pending { self.new.pending.now ≡ self.old.pending.now }
        ensures kept { Keeps self.old self.new }
    {
        if self.count() >= counted_len(self.area.len()) {
            return Err(Refusal::RowsShort);
        }
        self.area[self.count] = row;
        self.count += 1;
        Ok(())
    }

    /// Has a list pending, if it finds room.
    pub(crate) fn pend(&mut self, pending: Pending) -> Result<(), Refusal>
        ensures answer { told result (λ _. state_of self.new) ≡ pended (rooms self.old) (state_of self.old) pending }
        ensures kept { Keeps self.old self.new }
    {
        self.pending
            .push(pending)
            .map_err(|_| Refusal::StackFull { list: pending.list })
    }

    /// Writes the rows of a list's own operations, the last one first.
    fn write_list(&mut self, list: u32, found: ListEntry) -> Result<(), Refusal>
        ensures answer { told result (λ _. rows_in self.new) ≡ written (text_of self.old.code) (row_room self.old) list found found.len (rows_in self.old) }
        ensures pending { self.new.pending.now ≡ self.old.pending.now }
        ensures kept { Keeps self.old self.new }
    {
        let code = self.code;
        for place in (0..found.len).rev() {
            self.put(row_at(&code, list, found, place)?)?;
        }
        Ok(())
    }

    /// Begins a list: has it pending, and writes its own rows.
    pub(crate) fn begin(&mut self, list: u32) -> Result<(), Refusal>
        ensures answer { told result (λ _. state_of self.new) ≡ begun (text_of self.old.code) (rooms self.old) list (rows_in self.old) (held self.old.pending.now) }
        ensures kept { Keeps self.old self.new }
    {
        self.pend(Pending {
            list,
            ..Pending::default()
        })?;
        let code = self.code;
        match code.list(list) {
            Some(found) if found.len > 0 => self.write_list(list, found),
            _ => Err(Refusal::Astray { list, operation: 0 }),
        }
    }
}
