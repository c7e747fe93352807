//! What a run answers, and the number of each refusal.
ghost use Rattle.std.specs.Prelude.{◌≡◌};
ghost use Rattle.machine_model.specs.declared.answers.Fault.TheVariants as fault;
ghost use Rattle.machine_model.specs.declared.answers.Stop.TheVariants as stop;
ghost use Rattle.machine_model.specs.Answers.{fault_number, answer_number};

use crate::state::Report;
use calculus::refusals::Place;
use calculus::values::Value;
use store::faults::StoreFault;

/// Why a run is refused.
#[derive(Clone, Copy, PartialEq, Eq, Debug)]
pub enum Fault {
    /// A count is past its area, or the registers count more than a start can have allowed.
    CountOutside,
    /// The areas do not belong together: a number points outside, an operation meets the wrong accumulator, or a list ends without a value.
    Astray,
    /// A figure where an object is needed.
    FigureTaken,
    /// The object has no method with the label.
    LabelMissing,
    AllowanceSpent,
    CellsFull,
    StackFull,
    /// What the store says: it is full, or the areas do not belong together.
    Store(StoreFault),
}

/// Why a run stops: done and paused are no failures, but all three end the loop, and `?` carries them.
#[derive(Clone, Copy)]
pub enum Stop {
    Done(Value),
    /// As many reductions as the call wished for are made.
    Paused,
    Refused(Fault),
}

/// What a run answers: each case but the first with the report. The cases are those of the rules, so they are not folded into a `Result`.
#[derive(Clone, Copy)]
pub enum RunAnswer {
    /// No program is running.
    NotRunning,
    Done {
        value: Value,
        report: Report,
    },
    Paused {
        report: Report,
    },
    Refused {
        fault: Fault,
        place: Place,
        report: Report,
    },
}

/// A store's fault stands whole in the run's.
impl From<StoreFault> for Fault {
    ghost from_gives = { λ f r. r ≡ fault.Store f };

    fn from(fault: StoreFault) -> Fault {
        Fault::Store(fault)
    }
}

/// A fault stops the run.
impl From<Fault> for Stop {
    ghost from_gives = { λ f r. r ≡ stop.Refused f };

    fn from(fault: Fault) -> Stop {
        Stop::Refused(fault)
    }
}

impl Fault {
    /// The number by which the fault is known.
    pub fn number(self) -> u32
        ensures { result ≡ fault_number self }
    {
        match self {
            Fault::CountOutside => 19,
            Fault::Astray => 19,
            Fault::FigureTaken => 20,
            Fault::LabelMissing => 21,
            Fault::AllowanceSpent => 22,
            Fault::CellsFull => 23,
            Fault::StackFull => 24,
            Fault::Store(StoreFault::ObjectsFull) => 25,
            Fault::Store(StoreFault::MethodsFull) => 26,
            Fault::Store(StoreFault::NoLocation) => 19,
            Fault::Store(StoreFault::NoPlace) => 19,
        }
    }
}

impl RunAnswer {
    /// The number of a refusal; done and paused have none.
    pub fn number(self) -> Option<u32>
        ensures { result ≡ answer_number self }
    {
        match self {
            RunAnswer::NotRunning => Some(18),
            RunAnswer::Done { .. } => None,
            RunAnswer::Paused { .. } => None,
            RunAnswer::Refused { fault, .. } => Some(fault.number()),
        }
    }
}
