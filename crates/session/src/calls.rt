//! The calls of a session.
ghost use Rattle.std.specs.Prelude.{◌≡◌, length, MatchResult};
ghost use Rattle.calculus.specs.Held.{counted};
ghost use Rattle.compiler.specs.Compile.{answer, Compiled, Untouched};
ghost use Rattle.machine_model.specs.Start.{start_answer, start_state, unused};
ghost use Rattle.machine_model.specs.Outcome.{run_outcome};
ghost use Rattle.machine.specs.Machine.{state_of};
ghost use Rattle.reference.specs.Calls as call;
ghost use Rattle.session.specs.Steps.{Whole, Step};

use crate::session::Session;
use calculus::code::{CodeArea, Tables};
use calculus::refusals::Refusal;
use calculus::rows::Row;
use calculus::values::Value;
use compiler::compile;
use machine::machine::Machine;
use machine_model::answers::RunAnswer;
use machine_model::state::{Cell, Frame};
use store::store::Store;

impl<'a, S: Store> Session<'a, S> {
    /// A session over lent areas, with no program yet.
    pub fn new(
        tables: Tables<'a>,
        cells: &'a mut [Cell],
        frames: &'a mut [Frame],
        store: S,
    ) -> Session<'a, S>
        ensures whole { Whole S.Store.meaning result }
        ensures machine { state_of result.machine ≡ unused (counted (length cells.old)) (counted (length frames.old)) }
    {
        Session {
            area: CodeArea::new(tables),
            machine: Machine::new(cells, frames),
            store,
        }
    }

    /// Compiles the rows of a term with this many givens: the program's number.
    pub fn compile(&mut self, rows: &[Row], givens: u32) -> Result<u32, Refusal>
        ensures answer { result ≡ answer rows.now givens self.old.area.tables self.old.area.counts }
        ensures leaves { MatchResult result
            (λ n. Compiled rows.now givens n self.old.area.tables self.old.area.counts self.new.area.tables self.new.area.counts)
            (λ _. Untouched self.old.area.tables self.old.area.counts self.new.area.tables self.new.area.counts) }
        ensures machine { state_of self.new.machine ≡ state_of self.old.machine }
        ensures store { S.meaning self.new.store ≡ S.meaning self.old.store }
        ensures step { Step S.Store.meaning (call.compile rows.now givens) self.old result self.new }
    {
        compile(rows, givens, &mut self.area)
    }

    /// Starts a program with its givens and an allowance of reductions.
    pub fn start(&mut self, program: u32, givens: &[Value], allowance: u32) -> Result<(), Refusal>
        ensures answer { result ≡ start_answer self.old.area.tables self.old.area.counts (state_of self.old.machine) (S.meaning self.old.store) program givens.now }
        ensures state { state_of self.new.machine ≡ start_state self.old.area.tables self.old.area.counts (state_of self.old.machine) (S.meaning self.old.store) program givens.now allowance }
        ensures area { self.new.area ≡ self.old.area }
        ensures store { S.meaning self.new.store ≡ S.meaning self.old.store }
        ensures step { Step S.Store.meaning (call.start program givens.now allowance) self.old result self.new }
    {
        self.machine
            .start(&self.area, &self.store, program, givens, allowance)
    }

    /// Runs the program for at most `n` reductions.
    pub fn run(&mut self, n: u32) -> RunAnswer
        ensures answer { result ≡ (run_outcome n self.old.area.tables self.old.area.counts (state_of self.old.machine) (S.meaning self.old.store)).answer }
        ensures state { state_of self.new.machine ≡ (run_outcome n self.old.area.tables self.old.area.counts (state_of self.old.machine) (S.meaning self.old.store)).state }
        ensures store { S.meaning self.new.store ≡ (run_outcome n self.old.area.tables self.old.area.counts (state_of self.old.machine) (S.meaning self.old.store)).store }
        ensures area { self.new.area ≡ self.old.area }
        ensures step { Step S.Store.meaning (call.run n) self.old result self.new }
    {
        self.machine.run(&self.area, &mut self.store, n)
    }
}
