//! Rows become operation lists.
#![tactic(auto)]

ghost use Rattle.std.specs.Prelude.{◌≡◌, MatchResult};
ghost use Rattle.compiler.specs.Compile.{answer, Compiled, Untouched};

mod emission;
mod guard;

use crate::emission::emit;
use crate::guard::Restore;
use calculus::area::{fits_in, rooms_of};
use calculus::code::CodeArea;
use calculus::refusals::Refusal;
use calculus::rows::Row;
use rows::check_rows;

/// Compiles the rows of a term with this many givens into the area: the number of its main list.
pub fn compile(rows: &[Row], givens: u32, area: &mut CodeArea<'_>) -> Result<u32, Refusal>
    ensures answer { result ≡ answer rows.now givens area.old.tables area.old.counts }
    ensures leaves { MatchResult result
        (λ n. Compiled rows.now givens n area.old.tables area.old.counts area.new.tables area.new.counts)
        (λ _. Untouched area.old.tables area.old.counts area.new.tables area.new.counts) }
{
    let saved = area.counts;
    let rooms = rooms_of(&area.tables);
    let guard = Restore {
        counts: &mut area.counts,
        saved,
    };
    if !fits_in(saved, rooms) {
        return Err(Refusal::CountOutside);
    }
    let sizes = check_rows(rows, givens)?;
    guard.counts.contents = saved.contents + sizes.contents;
    if guard.counts.contents > rooms.contents {
        return Err(Refusal::ContentsFull);
    }
    guard.counts.operations = saved.operations + sizes.operations;
    if guard.counts.operations > rooms.operations {
        return Err(Refusal::OperationsFull);
    }
    guard.counts.methods = saved.methods + sizes.methods;
    if guard.counts.methods > rooms.methods {
        return Err(Refusal::MethodsFull);
    }
    // Emission is made behind a call: in here the final value of a field lent for it would be lost to the proof.
    let _used = emit(&mut area.tables, saved, rows, givens + 1);
    guard.disarm();
    Ok(saved.contents)
}
