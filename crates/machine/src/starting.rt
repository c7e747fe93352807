//! A machine, and the start of a program.
ghost use Rattle.std.specs.Prelude.{◌≡◌, ℕ, ◌+◌, ◌<◌, ◌≤◌, [], ◌∷◌, ◌++◌, length, OnOk, nat_le};
ghost use Rattle.calculus.specs.Held.{counted, laid, room};
ghost use Rattle.calculus.specs.Text.{text_of};
ghost use Rattle.machine_model.specs.Start.{givens_of, present, all_present, start_for, start_result, start_answer, start_state, started_if, cells_with, env_with, begun, unused};
ghost use Rattle.machine.specs.Machine.{state_of};

use crate::machine::Machine;
use calculus::area::used_of;
use calculus::code::{Code, CodeArea, Counts, Tables};
use calculus::refusals::Refusal;
use calculus::stack::Stack;
use calculus::values::Value;
use machine_model::state::{Cell, Frame, Progress, Registers};
use machine_steps::fetching::add_cell;
use machine_steps::state::State;
use store::store::Store;

/// The number of givens of a program, if there is one of this number.
fn givens_of(code: &Code<'_>, program: u32) -> Option<u32>
    ensures { result ≡ givens_of (text_of code.now) program }
{
    code.list(program)?.givens()
}

/// Whether a value names no object that is missing among so many.
fn is_present(value: Value, objects: u32) -> bool
    ensures { result ≡ present objects value }
{
    match value {
        Value::Figure(_) => true,
        Value::Location(location) => location < objects,
    }
}

/// Whether every given does so.
fn are_present(givens: &[Value], objects: u32) -> bool
    ensures { result ≡ all_present objects givens.now }
{
    givens.iter().all(|value| is_present(*value, objects))
}

/// Whether so many cells more find room.
fn have_room(cells: &Stack<'_, Cell>, more: usize) -> bool
    ensures { result ≡ nat_le (length (laid cells.now) + more) (room cells.now) }
{
    let used = cells.len();
    let room = cells.room();
    used <= room && more <= room - used
}

/// Puts the givens into cells, the last given first, and answers the environment that they make.
fn bind_givens(cells: &mut Stack<'_, Cell>, givens: &[Value]) -> u32
    requires { length (laid cells.old) + length givens.now ≤ room cells.old }
    ensures cells { laid cells.new ≡ cells_with (laid cells.old) givens.now }
    ensures room { room cells.new ≡ room cells.old }
    ensures env { result ≡ env_with (laid cells.old) givens.now }
{
    let mut env = 0;
    for given in givens.iter().rev() {
        let cell = Cell {
            value: *given,
            parent: env,
        };
        env = add_cell(cells, cell);
    }
    env
}

impl<'a> Machine<'a> {
    /// A machine that has started no program yet.
    pub fn new(cells: &'a mut [Cell], frames: &'a mut [Frame]) -> Machine<'a>
        ensures { state_of result ≡ unused (counted (length cells.old)) (counted (length frames.old)) }
    {
        Machine {
            state: State {
                registers: Registers::default(),
                cells: Stack::new(cells),
                frames: Stack::new(frames),
            },
        }
    }

    /// Whether the program can be started with the givens, where there are so many objects.
    fn can_start(
        &self,
        code: &Code<'_>,
        objects: u32,
        program: u32,
        givens: &[Value],
    ) -> Result<(), Refusal>
        ensures answer { result ≡ start_for (givens_of (text_of code.now) program) objects (state_of self.now) givens.now }
        ensures room { OnOk result (length (laid self.now.state.cells) + length givens.now ≤ room self.now.state.cells) }
    {
        let count = givens_of(code, program).ok_or(Refusal::NoProgram)?;
        if count as usize != givens.len() {
            return Err(Refusal::WrongGivens);
        }
        if !are_present(givens, objects) {
            return Err(Refusal::NoSuchObject);
        }
        if !have_room(&self.state.cells, givens.len()) {
            return Err(Refusal::CellsShort);
        }
        Ok(())
    }

    /// Starts a program over the used parts of the code.
    fn start_over<S: Store>(
        &mut self,
        code: &Code<'_>,
        store: &S,
        program: u32,
        givens: &[Value],
        allowance: u32,
    ) -> Result<(), Refusal>
        ensures answer { result ≡ start_result (text_of code.now) (state_of self.old) (S.meaning store.now) program givens.now }
        ensures state { state_of self.new ≡ started_if (start_result (text_of code.now) (state_of self.old) (S.meaning store.now) program givens.now) (state_of self.old) (begun (state_of self.old) program givens.now allowance) }
    {
        if let Progress::Running = self.state.registers.progress {
            return Err(Refusal::Running);
        }
        self.can_start(code, store.object_count(), program, givens)?;
        let env = bind_givens(&mut self.state.cells, givens);
        self.state.frames.clear();
        self.state.registers = Registers {
            at: Frame {
                list: program,
                next: 0,
                env,
            },
            allowance,
            progress: Progress::Running,
            ..Registers::default()
        };
        Ok(())
    }

    /// Starts a program with its givens and an allowance of reductions.
    pub fn start<S: Store>(
        &mut self,
        area: &CodeArea<'_>,
        store: &S,
        program: u32,
        givens: &[Value],
        allowance: u32,
    ) -> Result<(), Refusal>
        ensures answer { result ≡ start_answer area.now.tables area.now.counts (state_of self.old) (S.meaning store.now) program givens.now }
        ensures state { state_of self.new ≡ start_state area.now.tables area.now.counts (state_of self.old) (S.meaning store.now) program givens.now allowance }
    {
        self.start_of(&area.tables, area.counts, store, program, givens, allowance)
    }

    /// The same for tables that are lent to be read alone, and for any counts of them.
    pub fn start_of<S: Store>(
        &mut self,
        tables: &Tables<'_>,
        counts: Counts,
        store: &S,
        program: u32,
        givens: &[Value],
        allowance: u32,
    ) -> Result<(), Refusal>
        ensures answer { result ≡ start_answer tables.now counts (state_of self.old) (S.meaning store.now) program givens.now }
        ensures state { state_of self.new ≡ start_state tables.now counts (state_of self.old) (S.meaning store.now) program givens.now allowance }
    {
        let code = used_of(tables, counts).ok_or(Refusal::CountOutside)?;
        self.start_over(&code, store, program, givens, allowance)
    }
}
