//! The reductions.
ghost use Rattle.std.specs.Prelude.{◌≡◌, ℕ, ◌+◌, ◌^◌, ◌<◌, ◌≤◌, length};
ghost use Rattle.calculus.specs.Held.{laid, room};
ghost use Rattle.calculus.specs.Text.{text_of};
ghost use Rattle.machine_model.specs.Reduce.{room_to_enter, entering, entered, valued, acted, entries_at, Ready, Stands};
ghost use Rattle.machine_steps.specs.Parts.{state_at, move_of};

use crate::fetching::add_cell;
use crate::state::State;
use calculus::code::{Code, MethodEntry};
use calculus::values::Value;
use machine_model::answers::Fault;
use machine_model::state::{Cell, Frame, Report};
use machine_model::steps::Action;
use store::closures::Closure;
use store::store::Store;

/// The method entries of an object.
fn entries_at<'b>(code: &Code<'b>, first: u32, count: u32) -> &'b [MethodEntry]
    requires { first + count ≤ length code.now.methods.now }
    ensures { result.now ≡ entries_at (text_of code.now) first count }
{
    let methods: &'b [MethodEntry] = code.methods;
    let from = first as usize;
    &methods[from..from + count as usize]
}

impl<'a> State<'a> {
    /// Puts a value into the accumulator, past the operation at hand.
    fn take(&mut self, value: Value, report: Report)
        requires allowed { 0 < self.old.registers.allowance }
        requires short { self.old.registers.at.next + 1 < 2 ^ 32 }
        ensures { state_at self.new ≡ valued (state_at self.old) value report }
    {
        self.registers.at.next += 1;
        self.registers.accumulator = Some(value);
        self.registers.allowance -= 1;
        self.registers.report = report;
    }

    /// Enters a closure with a value in a new cell, where there is room.
    fn go_in(&mut self, value: Value, closure: Closure, report: Report)
        requires allowed { 0 < self.old.registers.allowance }
        requires short { self.old.registers.at.next + 1 < 2 ^ 32 }
        requires cells { length (laid self.old.cells) < room self.old.cells }
        requires frames { length (laid self.old.frames) < room self.old.frames }
        ensures { state_at self.new ≡ entered (state_at self.old) value closure.env closure.list report }
    {
        let at = self.registers.at;
        let env = add_cell(
            &mut self.cells,
            Cell {
                value,
                parent: closure.env,
            },
        );
        let _ = self.frames.push(Frame {
            next: at.next + 1,
            ..at
        });
        self.registers.at = Frame {
            list: closure.list,
            next: 0,
            env,
        };
        self.registers.accumulator = None;
        self.registers.allowance -= 1;
        self.registers.report = report;
    }

    /// Enters a closure with a value, if a cell and a frame more find room.
    fn enter(&mut self, value: Value, closure: Closure, report: Report) -> Result<(), Fault>
        requires allowed { 0 < self.old.registers.allowance }
        requires short { self.old.registers.at.next + 1 < 2 ^ 32 }
        ensures answer { result ≡ room_to_enter (state_at self.old) }
        ensures state { state_at self.new ≡ entering (state_at self.old) value closure.env closure.list report }
    {
        if !self.cells.has_room() {
            return Err(Fault::CellsFull);
        }
        if !self.frames.has_room() {
            return Err(Fault::StackFull);
        }
        self.go_in(value, closure, report);
        Ok(())
    }

    /// Makes the reduction, or says what refuses it.
    pub fn act<S: Store>(
        &mut self,
        code: &Code<'_>,
        store: &mut S,
        action: Action,
    ) -> Result<(), Fault>
        requires ready { Ready (state_at self.old) }
        requires stands { Stands (text_of code.now) action }
        ensures { move_of result self.new (S.meaning store.new) ≡ acted (text_of code.now) (state_at self.old) (S.meaning store.old) action }
    {
        let env = self.registers.at.env;
        let report = self.registers.report;
        let transitions = report.transitions + 1;
        match action {
            Action::Make { first, count } => {
                let location = store.make(entries_at(code, first, count), env)?;
                self.take(
                    Value::Location(location),
                    Report {
                        transitions,
                        objects: report.objects + 1,
                        ..report
                    },
                );
                Ok(())
            }
            Action::Call { receiver, closure } => {
                let report = Report {
                    transitions,
                    selects: report.selects + 1,
                    ..report
                };
                self.enter(receiver, closure, report)
            }
            Action::Put {
                location,
                place,
                list,
            } => {
                store.update(location, place, Closure { list, env })?;
                self.take(
                    Value::Location(location),
                    Report {
                        transitions,
                        updates: report.updates + 1,
                        ..report
                    },
                );
                Ok(())
            }
            Action::Copied { location } => {
                let copy = store.clone_object(location)?;
                self.take(
                    Value::Location(copy),
                    Report {
                        transitions,
                        clones: report.clones + 1,
                        ..report
                    },
                );
                Ok(())
            }
            Action::Bind { value, list } => {
                let report = Report {
                    transitions,
                    lets: report.lets + 1,
                    ..report
                };
                self.enter(value, Closure { list, env }, report)
            }
        }
    }
}
