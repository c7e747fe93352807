//! What stands in the tables.
ghost use Rattle.std.specs.Prelude.{◌≡◌, ◌+◌, ◌-◌, ◌^◌, ◌<◌, true, IfOk};
ghost use Rattle.calculus.specs.Text.{text_of};
ghost use Rattle.listing.specs.Steps.{row_of, proper, row_at, astray, step_at, step_in, step_of, method_step, is_method, passes};

use crate::pending::{Pending, Step};
use calculus::code::{Code, ListEntry, MethodEntry, Operation};
use calculus::refusals::Refusal;
use calculus::rows::{Row, RowKind};

/// The row of an operation.
fn row_of(operation: Operation) -> Row
    ensures { result ≡ row_of operation }
{
    match operation {
        Operation::Access(index) => Row::new(RowKind::Variable, 0, i64::from(index)),
        Operation::Figure(figure) => Row::new(RowKind::Figure, 0, figure),
        Operation::Object { first: _, count } => Row::new(RowKind::Object, 0, i64::from(count)),
        Operation::Select(label) => Row::new(RowKind::Select, label, 0),
        Operation::Update(label, _) => Row::new(RowKind::Update, label, 0),
        Operation::Clone => Row::new(RowKind::Clone, 0, 0),
        Operation::Let(_) => Row::new(RowKind::Let, 0, 0),
    }
}

/// Whether an operation may stand at a place of a list.
fn is_proper(code: &Code<'_>, list: u32, place: u32, operation: Operation) -> bool
    ensures { result ≡ proper (text_of code.now) list place operation }
{
    match operation {
        Operation::Access(_) | Operation::Figure(_) => place == 0,
        Operation::Object { first, count } => place == 0
            && first as usize + count as usize <= code.methods.len(),
        Operation::Select(_) | Operation::Clone => 0 < place,
        Operation::Update(_, body) | Operation::Let(body) => 0 < place && list < body,
    }
}

/// The row of the operation at a place of a list.
pub(crate) fn row_at(
    code: &Code<'_>,
    list: u32,
    entry: ListEntry,
    place: u32,
) -> Result<Row, Refusal>
    ensures { result ≡ row_at (text_of code.now) list entry place }
{
    match code.operation(entry, place) {
        Some(operation) if is_proper(code, list, place, operation) => Ok(row_of(operation)),
        _ => Err(Refusal::Astray {
            list,
            operation: place,
        }),
    }
}

/// Where a pending list goes astray.
fn astray(pending: Pending) -> Refusal
    ensures { result ≡ astray pending }
{
    Refusal::Astray {
        list: pending.list,
        operation: pending.next,
    }
}

/// What a method's entry says.
fn method_step(pending: Pending, method: Option<MethodEntry>) -> Result<Step, Refusal>
    ensures { result ≡ method_step pending method }
{
    match method {
        Some(entry) if pending.list < entry.list => Ok(Step::Method(entry.label, entry.list)),
        _ => Err(astray(pending)),
    }
}

/// What a pending list has next at an operation.
fn step_at(code: &Code<'_>, pending: Pending, operation: Operation) -> Result<Step, Refusal>
    ensures is { result ≡ step_at (text_of code.now) pending operation }
    ensures few { IfOk result (λ step. is_method step ≡ true → pending.method + 1 < 2 ^ 32) }
{
    match operation {
        Operation::Object { first, count } if pending.method < count => method_step(
            pending,
            code.method(first, pending.method),
        ),
        Operation::Update(_, body) | Operation::Let(body) => Ok(Step::Body(body)),
        _ => Ok(Step::Passed),
    }
}

/// What a pending list with this entry has next.
fn step_in(code: &Code<'_>, pending: Pending, entry: ListEntry) -> Result<Step, Refusal>
    ensures is { result ≡ step_in (text_of code.now) pending entry }
    ensures few { IfOk result (λ step. is_method step ≡ true → pending.method + 1 < 2 ^ 32) }
    ensures short { IfOk result (λ step. passes step ≡ true → pending.next + 1 < 2 ^ 32) }
{
    if pending.next >= entry.len {
        return Ok(Step::Ended);
    }
    let operation = code.operation(entry, pending.next).ok_or(astray(pending))?;
    step_at(code, pending, operation)
}

/// What a pending list has next.
pub(crate) fn step_of(code: &Code<'_>, pending: Pending) -> Result<Step, Refusal>
    ensures is { result ≡ step_of (text_of code.now) pending }
    ensures few { IfOk result (λ step. is_method step ≡ true → pending.method + 1 < 2 ^ 32) }
    ensures short { IfOk result (λ step. passes step ≡ true → pending.next + 1 < 2 ^ 32) }
{
    let entry = code.list(pending.list).ok_or(astray(pending))?;
    step_in(code, pending, entry)
}
