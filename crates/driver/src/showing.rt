//! Answers of more than one part: rows, lists of operations, objects.
use crate::reading::Script;
use answers::answers::{Answer, Text};
use calculus::code::{Code, ListEntry, Operation};
use calculus::refusals::Refusal;
use calculus::rows::Row;
use calculus::stack::MOST_ENTRIES;
use listing::extent::lists_end;
use machine_model::state::Cell;
use session::session::Session;
use std::alloc::AllocError;
use std::fmt::Write;
use std::iter::Take;
use std::{io, slice};
use store::closures::Method;
use store::store::Store;

/// `rows ROW ROW ..`
pub fn print_rows(script: &Script, rows: &[Row]) -> io::Result<()> {
    let mut line = String::from_str(script.heap(), "rows")?;
    for row in rows {
        write!(line, " {}", signs::write::Text(*row))?;
    }
    script.print(line)
}

/// So many entries of a table from the first on, as far as they are there.
fn part<T>(entries: &[T], first: u32, count: u32) -> Take<slice::Iter<'_, T>> {
    let rest = entries.get(first as usize..).unwrap_or(&[]);
    rest.iter().take(count as usize)
}

/// `list K: OP, OP, ..`, each method of an object ` LABEL:LIST` behind it.
fn list_line(
    script: &Script,
    code: &Code<'_>,
    number: usize,
    entry: ListEntry,
) -> Result<String, AllocError> {
    let mut line = format!(in script.heap(); "list {number}:")?;
    for (i, operation) in part(code.operations, entry.first, entry.len).enumerate() {
        line.push_str(if i == 0 { " " } else { ", " })?;
        write!(line, "{}", Text(*operation))?;
        if let Operation::Object { first, count } = *operation {
            for entry in part(code.methods, first, count) {
                write!(line, "{}", Text(*entry))?;
            }
        }
    }
    Ok(line)
}

/// A line for each list of a program, in number order: its main list and the bodies up to the next main list.
pub fn print_code<S: Store>(
    script: &Script,
    session: &Session<'_, S>,
    program: u32,
) -> io::Result<()> {
    let code = session.code();
    let Some(end) = lists_end(program, &code) else {
        return script.print_refused(Refusal::NoProgram);
    };
    let lists = code.contents.iter().enumerate().take(end);
    for (number, entry) in lists.skip(program as usize) {
        script.print(list_line(script, &code, number, *entry)?)?;
    }
    Ok(())
}

/// The cell that an environment begins with.
fn first_cell<S: Store>(session: &Session<'_, S>, env: u32) -> Option<Cell> {
    session.cell((env as usize).checked_sub(1)?)
}

/// The values of an environment, the nearest first, parted by blanks.
fn push_values<S: Store>(
    line: &mut String,
    session: &Session<'_, S>,
    env: u32,
) -> Result<(), AllocError> {
    let mut env = env;
    // an environment is a number, by which its first cell gives the next one's.
    // No type says that this comes to an end, so there are as many turns as there can be cells
    for i in 0..MOST_ENTRIES {
        let Some(cell) = first_cell(session, env) else {
            return Ok(());
        };
        if i > 0 {
            line.push_str(" ")?;
        }
        write!(line, "{}", signs::write::Text(cell.value))?;
        env = cell.parent;
    }
    Ok(())
}

/// `object L: LABEL=list K over [VALUE VALUE ..] ..`
fn object_line<S: Store>(
    script: &Script,
    session: &Session<'_, S>,
    location: u32,
) -> Result<String, AllocError> {
    let mut line = format!(in script.heap(); "object {location}:")?;
    let Ok(size) = session.size(location) else {
        return Ok(line);
    };
    // a store is asked for its objects and their methods by number
    for place in 0..size {
        let Ok(method) = session.method_at(location, place) else {
            return Ok(line);
        };
        let Method { label, closure } = method;
        write!(line, " {label}=list {} over [", closure.list)?;
        push_values(&mut line, session, closure.env)?;
        line.push_str("]")?;
    }
    Ok(line)
}

/// A line for each object, or that there are none.
pub fn print_objects<S: Store>(script: &Script, session: &Session<'_, S>) -> io::Result<()> {
    let count = session.object_count();
    if count == 0 {
        return script.print(Answer::NoObjects);
    }
    for location in 0..count {
        script.print(object_line(script, session, location)?)?;
    }
    Ok(())
}
