//! The calls of a script, carried out.
use crate::reading::Script;
use crate::showing::{print_code, print_objects, print_rows};
use crate::trials::Trials;
use answers::answers::Answer;
use calculus::rows::Row;
use listing::pending::Pending;
use rows::{MOST_ROWS, check_rows};
use script::calls::Call;
use session::session::Session;
use std::io;
use store::store::Store;

/// As many pending lists as compiled code can have.
const PENDING_LISTS: usize = 200;

/// Lists a program back and prints its rows.
fn list<S: Store>(script: &Script, session: &Session<'_, S>, program: u32) -> io::Result<()> {
    let heap = script.heap();
    let mut rows = vec![in heap; Row::default(); MOST_ROWS]?;
    let mut stack = vec![in heap; Pending::default(); PENDING_LISTS]?;
    match session.list(program, &mut rows, &mut stack) {
        Ok(count) => print_rows(script, &rows[..count as usize]),
        Err(refusal) => script.print_refused(refusal),
    }
}

/// Carries a call out and prints its answer.
pub fn perform<S: Store, T: Trials<S>>(
    script: &Script,
    session: &mut Session<'_, S>,
    trials: &mut T,
    call: &Call,
) -> io::Result<()> {
    match call {
        Call::Check { givens, rows } => {
            script.print_answer(check_rows(rows, *givens).map(Answer::Sizes))
        }
        Call::Compile { givens, rows } => {
            script.print_answer(session.compile(rows, *givens).map(Answer::Program))
        }
        Call::List { program } => list(script, session, *program),
        Call::Code { program } => print_code(script, session, *program),
        Call::Start {
            program,
            allowance,
            values,
        } => script.print_answer(
            session
                .start(*program, values, *allowance)
                .map(|()| Answer::Started),
        ),
        Call::Run { reductions } => script.print(Answer::Ran(session.run(*reductions))),
        Call::Trial(call) => match trials.call(session, *call) {
            Some(answer) => script.print_answer(answer),
            None => Err(io::Error::other("the store is no trial layer")),
        },
        Call::Objects => print_objects(script, session),
    }
}
