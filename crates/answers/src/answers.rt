//! What the calls of a script answer.
ghost use Rattle.std.specs.Prelude.{◌≡◌, Some};
ghost use Rattle.answers.specs.declared.answers.Refused.TheVariants as refused;
ghost use Rattle.answers.specs.Texts.{place_text, report_text, sizes_text, run_text, answer_text, refusal_text};

use calculus::code::Counts;
use calculus::refusals::{Place, Refusal};
use machine_model::answers::RunAnswer;
use machine_model::state::Report;
use std::fmt;
use trial_layer::faults::TrialFault;

/// What a call answers that is carried out, where it is one line.
#[derive(Clone, Copy)]
pub enum Answer {
    Sizes(Counts),
    Program(u32),
    Started,
    Ran(RunAnswer),
    Trial(u32),
    Kept,
    Restored,
    NoObjects,
}

/// Why a call is refused.
#[derive(Clone, Copy, PartialEq, Eq, Debug)]
pub enum Refused {
    Call(Refusal),
    /// A call to a trial layer.
    Trial(TrialFault),
}

impl From<Refusal> for Refused {
    ghost from_gives = { λ refusal r. r ≡ refused.Call refusal };

    fn from(refusal: Refusal) -> Refused {
        Refused::Call(refusal)
    }
}

impl From<TrialFault> for Refused {
    ghost from_gives = { λ fault r. r ≡ refused.Trial fault };

    fn from(fault: TrialFault) -> Refused {
        Refused::Trial(fault)
    }
}

impl fmt::Display for Refused {
    ghost output = { λ e. Some (refusal_text e) };

    fn fmt<W: fmt::Write>(&self, f: &mut fmt::Formatter<W>) -> fmt::Result {
        match *self {
            Refused::Call(why) => { write!(f, "refused {} at {}", why.number(), Text(why.place())) }
            Refused::Trial(why) => write!(f, "refused {} at 0", why.number()),
        }
    }
}

/// A value of another crate, to be written as a script's answer. That crate knows nothing of such texts.
#[derive(Clone, Copy)]
pub struct Text<T>(pub T);

impl fmt::Display for Text<Place> {
    ghost output = { λ t. Some (place_text t.0) };

    fn fmt<W: fmt::Write>(&self, f: &mut fmt::Formatter<W>) -> fmt::Result {
        match self.0 {
            Place::Whole => write!(f, "0"),
            Place::Row(row) => write!(f, "{row}"),
            Place::Operation { list, operation } => write!(f, "list {list} operation {operation}"),
        }
    }
}

impl fmt::Display for Text<Report> {
    ghost output = { λ t. Some (report_text t.0) };

    fn fmt<W: fmt::Write>(&self, f: &mut fmt::Formatter<W>) -> fmt::Result {
        let Report {
            transitions,
            objects,
            selects,
            updates,
            clones,
            lets,
        } = self.0;
        write!(
            f,
            "transitions {transitions} object {objects} select {selects} update {updates} clone {clones} let {lets}"
        )
    }
}

/// What rows take.
impl fmt::Display for Text<Counts> {
    ghost output = { λ t. Some (sizes_text t.0) };

    fn fmt<W: fmt::Write>(&self, f: &mut fmt::Formatter<W>) -> fmt::Result {
        let Counts {
            contents,
            operations,
            methods,
        } = self.0;
        write!(
            f,
            "sizes contents {contents} operations {operations} methods {methods}"
        )
    }
}

/// What a run answers.
impl fmt::Display for Text<RunAnswer> {
    ghost output = { λ t. Some (run_text t.0) };

    fn fmt<W: fmt::Write>(&self, f: &mut fmt::Formatter<W>) -> fmt::Result {
        match self.0 {
            // by `RunAnswer::number` this arm would open an Option of which it is known that there is one
            RunAnswer::NotRunning => write!(f, "refused 18 at 0"),
            RunAnswer::Done { value, report } => {
                write!(f, "done {} {}", signs::write::Text(value), Text(report))
            }
            RunAnswer::Paused { report } => write!(f, "paused {}", Text(report)),
            RunAnswer::Refused {
                fault,
                place,
                report,
            } => write!(
                f,
                "refused {} at {} {}",
                fault.number(),
                Text(place),
                Text(report)
            ),
        }
    }
}

impl fmt::Display for Answer {
    ghost output = { λ a. Some (answer_text a) };

    fn fmt<W: fmt::Write>(&self, f: &mut fmt::Formatter<W>) -> fmt::Result {
        match *self {
            Answer::Sizes(sizes) => write!(f, "{}", Text(sizes)),
            Answer::Program(number) => write!(f, "program {number}"),
            Answer::Started => write!(f, "started"),
            Answer::Ran(answer) => write!(f, "{}", Text(answer)),
            Answer::Trial(number) => write!(f, "trial {number}"),
            Answer::Kept => write!(f, "kept"),
            Answer::Restored => write!(f, "restored"),
            Answer::NoObjects => write!(f, "no objects"),
        }
    }
}
