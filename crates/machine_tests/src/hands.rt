//! What is put into a machine and a store by hand.
use crate::case::Case;
use crate::numbers::fitted;
use calculus::code::MethodEntry;
use calculus::values::Value;
use machine_model::state::{Cell, Frame, Progress, Report};
use store::store::Store;

/// What a line puts in.
#[derive(Clone, Copy)]
pub enum Hand {
    Cell(Cell),
    Frame(Frame),
    /// An object of one method, closed over an environment.
    Object(MethodEntry, u32),
    /// Where a running program stands, and its allowance.
    At(Frame, u32),
    Holds(Value),
    Report(Report),
}

/// The frame of three numbers.
fn frame(list: i64, next: i64, env: i64) -> Frame {
    Frame {
        list: fitted(list),
        next: fitted(next),
        env: fitted(env),
    }
}

/// The cell of a value, before an environment.
fn cell(value: Value, parent: i64) -> Cell {
    Cell {
        value,
        parent: fitted(parent),
    }
}

/// What a line puts in, if it is such a line.
pub fn hand_of(name: &str, numbers: [i64; 6]) -> Option<Hand> {
    let [a, b, c, d, e, f] = numbers;
    match name {
        "cell" => Some(Hand::Cell(cell(Value::Figure(a), b))),
        "cell-at" => Some(Hand::Cell(cell(Value::Location(fitted(a)), b))),
        "frame" => Some(Hand::Frame(frame(a, b, c))),
        "make" => Some(Hand::Object(
            MethodEntry {
                label: fitted(a),
                list: fitted(b),
            },
            fitted(c),
        )),
        "at" => Some(Hand::At(frame(a, b, c), fitted(d))),
        "holds" => Some(Hand::Holds(Value::Figure(a))),
        "holds-at" => Some(Hand::Holds(Value::Location(fitted(a)))),
        "report" => Some(Hand::Report(Report {
            transitions: fitted(a),
            objects: fitted(b),
            selects: fitted(c),
            updates: fitted(d),
            clones: fitted(e),
            lets: fitted(f),
        })),
        _ => None,
    }
}

impl<S: Store> Case<'_, S> {
    /// Puts it in.
    pub fn put_in(&mut self, hand: Hand) {
        let state = &mut self.machine.state;
        match hand {
            Hand::Cell(cell) => {
                let _ = state.cells.push(cell);
            }
            Hand::Frame(frame) => {
                let _ = state.frames.push(frame);
            }
            Hand::Object(method, env) => {
                let _ = self.store.make(&[method], env);
            }
            Hand::At(at, allowance) => {
                state.registers.at = at;
                state.registers.allowance = allowance;
                state.registers.progress = Progress::Running;
            }
            Hand::Holds(value) => state.registers.accumulator = Some(value),
            Hand::Report(report) => state.registers.report = report,
        }
    }
}
