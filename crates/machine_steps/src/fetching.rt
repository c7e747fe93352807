//! What stands at a place of the code, and in an environment.
ghost use Rattle.std.specs.Prelude.{◌≡◌, ℕ, ◌+◌, ◌-◌, ◌^◌, ◌<◌, ◌≤◌, true, [], ◌∷◌, ◌++◌, length};
ghost use Rattle.calculus.specs.Held.{laid, held, room};
ghost use Rattle.calculus.specs.Text.{text_of};
ghost use Rattle.machine_model.specs.State.{fetched, fetched_from, is_found, cell_of, variable, begins, goes_on};

use calculus::code::{Code, ListEntry, Operation};
use calculus::stack::Stack;
use calculus::values::Value;
use machine_model::answers::Fault;
use machine_model::state::Cell;
use machine_model::steps::{Due, Redex};

/// The operation at a place of a list, and none where the list is at its end.
pub(crate) fn fetch(code: &Code<'_>, list: u32, next: u32) -> Result<Option<Operation>, Fault>
    ensures is { result ≡ fetched (text_of code.now) list next }
    ensures short { is_found result ≡ true → next + 1 < 2 ^ 32 }
{
    let entry = code.list(list).ok_or(Fault::Astray)?;
    fetch_from(code, entry, next)
}

/// The operation at a place of the list that an entry tells.
fn fetch_from(code: &Code<'_>, entry: ListEntry, next: u32) -> Result<Option<Operation>, Fault>
    ensures is { result ≡ fetched_from (text_of code.now).operations entry next }
    ensures short { is_found result ≡ true → next + 1 < 2 ^ 32 }
{
    if next < entry.len {
        let operation = code.operation(entry, next).ok_or(Fault::Astray)?;
        Ok(Some(operation))
    } else if next == entry.len {
        Ok(None)
    } else {
        Err(Fault::Astray)
    }
}

/// The cell that an environment begins with.
fn cell_at(cells: &Stack<'_, Cell>, env: u32) -> Option<Cell>
    ensures { result ≡ cell_of (laid cells.now) env }
{
    let place = env.checked_sub(1)?;
    cells.get(place as usize)
}

/// Adds a cell where there is room, and answers the environment that begins with it.
pub fn add_cell(cells: &mut Stack<'_, Cell>, cell: Cell) -> u32
    requires { length (laid cells.old) < room cells.old }
    ensures cells { laid cells.new ≡ laid cells.old ++ (cell ∷ []) }
    ensures room { room cells.new ≡ room cells.old }
    ensures env { result ≡ length (laid cells.old) + 1 }
{
    let env = cells.len() as u32 + 1;
    let _ = cells.push(cell);
    env
}

/// The value of a variable, counted from 1, in an environment.
pub(crate) fn look_up(cells: &Stack<'_, Cell>, env: u32, index: u32) -> Option<Value>
    ensures { result ≡ variable (laid cells.now) env index }
{
    let steps = index.checked_sub(1)?;
    let mut at = env;
    for _ in 0..steps {
        at = cell_at(cells, at)?.parent;
    }
    let cell = cell_at(cells, at)?;
    Some(cell.value)
}

/// What an operation makes of an empty accumulator.
pub(crate) fn begin(cells: &Stack<'_, Cell>, env: u32, operation: Operation) -> Result<Due, Fault>
    ensures { result ≡ begins (laid cells.now) env operation }
{
    match operation {
        Operation::Access(index) => {
            let value = look_up(cells, env, index).ok_or(Fault::Astray)?;
            Ok(Due::Fill(value))
        }
        Operation::Figure(figure) => Ok(Due::Fill(Value::Figure(figure))),
        Operation::Object { first, count } => Ok(Due::Reduce(Redex::Object { first, count })),
        _ => Err(Fault::Astray),
    }
}

/// What an operation makes of a value.
pub(crate) fn go_on(value: Value, operation: Operation) -> Result<Due, Fault>
    ensures { result ≡ goes_on value operation }
{
    let redex = match operation {
        Operation::Select(label) => Redex::Select {
            receiver: value,
            label,
        },
        Operation::Update(label, list) => Redex::Update {
            receiver: value,
            label,
            list,
        },
        Operation::Clone => Redex::Clone { receiver: value },
        Operation::Let(list) => Redex::Let { value, list },
        _ => return Err(Fault::Astray),
    };
    Ok(Due::Reduce(redex))
}
