//! The walk over the pending lists.
ghost use Rattle.std.specs.Prelude.{◌≡◌, ◌+◌, ◌*◌, ◌<◌, ◌≤◌, length, take, drop, IfOk, Some};
ghost use Rattle.calculus.specs.Held.{held, room};
ghost use Rattle.calculus.specs.Text.{text_of};
ghost use Rattle.listing.specs.Steps.{step_of};
ghost use Rattle.listing.specs.Listing.{carried, walked, listed, listed_whole};
ghost use Rattle.listing.specs.Cost.{cost};
ghost use Rattle.listing.specs.Areas.{row_room, rooms, rows_in, state_of, told, Keeps, lent_rooms};

use crate::pending::{Pending, Step};
use crate::reading::step_of;
use crate::writing::Listing;
use calculus::code::Code;
use calculus::refusals::Refusal;
use calculus::rows::{Row, RowKind};
use calculus::stack::Stack;

impl Listing<'_, '_> {
    /// A turn of the last list begun, which is taken from the stack.
    fn turn(&mut self, pending: Pending) -> Result<(), Refusal>
        requires { length (held self.old.pending.now) < room self.old.pending.now }
        ensures answer { told result (λ _. state_of self.new) ≡ carried (text_of self.old.code) (rooms self.old) (rows_in self.old) pending (held self.old.pending.now) (step_of (text_of self.old.code) pending) }
        ensures kept { Keeps self.old self.new }
    {
        let code = self.code;
        match step_of(&code, pending)? {
            Step::Ended => Ok(()),
            Step::Passed => self.pend(pending.pass()),
            Step::Method(label, body) => {
                self.pend(pending.pass_method())?;
                self.put(Row::new(RowKind::Method, label, 0))?;
                self.begin(body)
            }
            Step::Body(body) => {
                self.pend(pending.pass())?;
                self.begin(body)
            }
        }
    }

    /// Takes turns until no list is pending.
    fn walk(&mut self) -> Result<(), Refusal>
        requires free { length (held self.old.pending.now) ≤ room self.old.pending.now }
        requires enough { cost (text_of self.old.code) (rooms self.old) (state_of self.old) < 2 * row_room self.old + 1 }
        ensures answer { Some (told result (λ _. rows_in self.new)) ≡ walked (2 * row_room self.old + 1) (text_of self.old.code) (rooms self.old) (state_of self.old) }
        ensures kept { Keeps self.old self.new }
    {
        // a turn may put lists on the stack that it was taken from
        while let Some(pending) = self.pending.pop() {
            self.turn(pending)?;
        }
        Ok(())
    }
}

/// Lists a list and all that is below it, whatever its mark.
fn list_whole(
    program: u32,
    code: &Code<'_>,
    rows: &mut [Row],
    stack: &mut [Pending],
) -> Result<u32, Refusal>
    ensures answer { Some (told result (λ n. take n rows.new)) ≡ listed_whole (text_of code.now) (lent_rooms rows.old stack.old) program }
    ensures kept { IfOk result (λ n. (n ≤ length rows.new) × (drop n rows.new ≡ drop n rows.old)) }
{
    let mut pending = Stack::new(stack);
    let mut listing = Listing::new(*code, &mut pending, rows);
    listing.begin(program)?;
    listing.walk()?;
    Ok(listing.count())
}

/// Lists a program of the used tables back.
pub(crate) fn list_program(
    program: u32,
    code: &Code<'_>,
    rows: &mut [Row],
    stack: &mut [Pending],
) -> Result<u32, Refusal>
    ensures answer { Some (told result (λ n. take n rows.new)) ≡ listed (text_of code.now) (lent_rooms rows.old stack.old) program }
    ensures kept { IfOk result (λ n. (n ≤ length rows.new) × (drop n rows.new ≡ drop n rows.old)) }
{
    match code.list(program) {
        Some(found) if found.givens().is_some() => list_whole(program, code, rows, stack),
        _ => Err(Refusal::NoProgram),
    }
}
