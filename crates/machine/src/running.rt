//! Runs.
ghost use Rattle.std.specs.Prelude.{◌≡◌, ℕ, ◌+◌, ◌-◌, ◌^◌, ◌<◌, ◌≤◌};
ghost use Rattle.calculus.specs.Text.{text_of};
ghost use Rattle.machine_model.specs.Settle.{Sound, fits};
ghost use Rattle.machine_model.specs.Run.{turn, run_for};
ghost use Rattle.machine_model.specs.Outcome.{place_in, answered, over, progress_after, with_progress, run_text, run_outcome};
ghost use Rattle.machine_steps.specs.Parts.{turn_of};
ghost use Rattle.machine.specs.Machine.{state_of, ran_of};

use crate::machine::Machine;
use calculus::area::used_of;
use calculus::code::{Code, CodeArea, Counts, Tables};
use calculus::refusals::Place;
use machine_model::answers::{Fault, RunAnswer, Stop};
use machine_model::state::{Frame, Progress, Registers};
use machine_steps::deciding::decide;
use store::store::Store;

/// More transitions than any allowance leads to.
const TRANSITIONS_LIMIT: u64 = 1 << 34;
/// More reductions than any allowance allows.
const REDUCTIONS_LIMIT: u64 = 1 << 32;

impl<'a> Machine<'a> {
    /// Makes all that is due and then one reduction, of the `left` that may still be made.
    fn turn<S: Store>(&mut self, code: &Code<'_>, store: &mut S, left: u32) -> Result<(), Stop>
        requires { Sound (state_of self.old) }
        ensures { turn_of result self.new.state (S.meaning store.new) ≡ turn left (text_of code.now) (state_of self.old) (S.meaning store.old) }
    {
        let redex = self.state.settle(code)?;
        let action = decide(code, store, redex)?;
        if left == 0 {
            return Err(Stop::Paused);
        }
        if self.state.registers.allowance == 0 {
            return Err(Stop::Refused(Fault::AllowanceSpent));
        }
        self.state.act(code, store, action)?;
        Ok(())
    }

    /// Runs until something stops it.
    fn work<S: Store>(&mut self, code: &Code<'_>, store: &mut S, n: u32) -> Stop
        requires { Sound (state_of self.old) }
        ensures { ran_of result self.new (S.meaning store.new) ≡ run_for n (text_of code.now) (state_of self.old) (S.meaning store.old) }
    {
        for left in (0..=n).rev() {
            if let Err(stop) = self.turn(code, store, left) {
                return stop;
            }
        }
        // a turn with none left has stopped before
        Stop::Paused
    }

    /// Whether no count can pass its limit, whatever the program does with its allowance.
    fn fits(&self) -> bool
        ensures { result ≡ fits (state_of self.now) }
    {
        let Registers {
            accumulator,
            allowance,
            report,
            ..
        } = self.state.registers;
        let frames = self.state.frames.len() as u64;
        if report.transitions >= TRANSITIONS_LIMIT || frames >= TRANSITIONS_LIMIT {
            return false;
        }
        let vacant = u64::from(accumulator.is_none());
        let allowance = allowance as u64;
        let reductions = report.objects as u64
            + report.selects as u64
            + report.updates as u64
            + report.clones as u64
            + report.lets as u64;
        report.transitions + (frames + vacant) + 3 * allowance < TRANSITIONS_LIMIT
            && reductions + allowance < REDUCTIONS_LIMIT
    }

    /// The answer to a stop. All but a pause end the program.
    fn answer(&mut self, stop: Stop) -> RunAnswer
        ensures answer { result ≡ answered stop (state_of self.old) }
        ensures state { state_of self.new ≡ with_progress (state_of self.old) (progress_after stop self.old.state.registers.progress) }
    {
        let report = self.state.registers.report;
        match stop {
            Stop::Done(value) => {
                self.end();
                RunAnswer::Done { value, report }
            }
            Stop::Paused => RunAnswer::Paused { report },
            Stop::Refused(fault) => {
                self.end();
                RunAnswer::Refused {
                    fault,
                    place: place_of(fault, self.state.registers.at),
                    report,
                }
            }
        }
    }

    /// Ends the program that is running, if one is.
    fn end(&mut self)
        ensures { state_of self.new ≡ with_progress (state_of self.old) (over self.old.state.registers.progress) }
    {
        if let Progress::Running = self.state.registers.progress {
            self.state.registers.progress = Progress::Ended;
        }
    }

    /// Runs the program over the used parts of the code.
    fn run_over<S: Store>(&mut self, code: &Code<'_>, store: &mut S, n: u32) -> RunAnswer
        ensures answer { result ≡ (run_text n (text_of code.now) (state_of self.old) (S.meaning store.old)).answer }
        ensures state { state_of self.new ≡ (run_text n (text_of code.now) (state_of self.old) (S.meaning store.old)).state }
        ensures store { S.meaning store.new ≡ (run_text n (text_of code.now) (state_of self.old) (S.meaning store.old)).store }
    {
        match self.state.registers.progress {
            Progress::Running => {
                if self.fits() {
                    let stop = self.work(code, store, n);
                    self.answer(stop)
                } else {
                    self.answer(Stop::Refused(Fault::CountOutside))
                }
            }
            _ => RunAnswer::NotRunning,
        }
    }

    /// Runs the program for at most `n` reductions.
    pub fn run<S: Store>(&mut self, area: &CodeArea<'_>, store: &mut S, n: u32) -> RunAnswer
        ensures answer { result ≡ (run_outcome n area.now.tables area.now.counts (state_of self.old) (S.meaning store.old)).answer }
        ensures state { state_of self.new ≡ (run_outcome n area.now.tables area.now.counts (state_of self.old) (S.meaning store.old)).state }
        ensures store { S.meaning store.new ≡ (run_outcome n area.now.tables area.now.counts (state_of self.old) (S.meaning store.old)).store }
    {
        self.run_of(&area.tables, area.counts, store, n)
    }

    /// The same for tables that are lent to be read alone, and for any counts of them.
    pub fn run_of<S: Store>(
        &mut self,
        tables: &Tables<'_>,
        counts: Counts,
        store: &mut S,
        n: u32,
    ) -> RunAnswer
        ensures answer { result ≡ (run_outcome n tables.now counts (state_of self.old) (S.meaning store.old)).answer }
        ensures state { state_of self.new ≡ (run_outcome n tables.now counts (state_of self.old) (S.meaning store.old)).state }
        ensures store { S.meaning store.new ≡ (run_outcome n tables.now counts (state_of self.old) (S.meaning store.old)).store }
    {
        match used_of(tables, counts) {
            Some(code) => self.run_over(&code, store, n),
            None => self.answer(Stop::Refused(Fault::CountOutside)),
        }
    }
}

/// Where a fault stands: at the operation at hand, but for that of a count.
fn place_of(fault: Fault, at: Frame) -> Place
    ensures { result ≡ place_in fault at }
{
    match fault {
        Fault::CountOutside => Place::Whole,
        _ => Place::Operation {
            list: at.list,
            operation: at.next,
        },
    }
}
