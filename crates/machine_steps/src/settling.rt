//! The silent transitions.
ghost use Rattle.std.specs.Prelude.{◌≡◌, ℕ, ◌+◌, ◌^◌, ◌<◌, ◌≤◌, true, OnOk};
ghost use Rattle.calculus.specs.Text.{text_of};
ghost use Rattle.machine_model.specs.State.{due, reads};
ghost use Rattle.machine_model.specs.Settle.{settled, rest, Sound};
ghost use Rattle.machine_steps.specs.Parts.{state_at};

use crate::fetching::{begin, fetch, go_on};
use crate::state::State;
use calculus::code::Code;
use machine_model::answers::{Fault, Stop};
use machine_model::steps::{Due, Redex};

impl<'a> State<'a> {
    /// What is next.
    fn next(&self, code: &Code<'_>) -> Result<Due, Fault>
        ensures is { result ≡ due (text_of code.now) (state_at self.now) }
        ensures short { reads result ≡ true → self.now.registers.at.next + 1 < 2 ^ 32 }
    {
        let at = self.registers.at;
        match fetch(code, at.list, at.next)? {
            Some(operation) => match self.registers.accumulator {
                None => begin(&self.cells, at.env, operation),
                Some(value) => go_on(value, operation),
            },
            None => {
                let value = self.registers.accumulator.ok_or(Fault::Astray)?;
                if self.frames.len() == 0 {
                    Ok(Due::Done(value))
                } else {
                    Ok(Due::Return)
                }
            }
        }
    }

    /// Makes every silent transition that is due.
    pub fn settle(&mut self, code: &Code<'_>) -> Result<Redex, Stop>
        requires { Sound (state_at self.old) }
        ensures answer { result ≡ rest (due (text_of code.now) (settled (text_of code.now) (state_at self.old))) }
        ensures state { state_at self.new ≡ settled (text_of code.now) (state_at self.old) }
        // the whole area, past its count too
        ensures cells { self.new.cells ≡ self.old.cells }
        ensures short { OnOk result (self.new.registers.at.next + 1 < 2 ^ 32) }
    {
        // until what is due is not silent
        loop {
            match self.next(code)? {
                Due::Fill(value) => {
                    self.registers.at.next += 1;
                    self.registers.accumulator = Some(value);
                    self.registers.report.transitions += 1;
                }
                Due::Return => {
                    self.registers.at = self.frames.pop().ok_or(Fault::Astray)?;
                    self.registers.report.transitions += 1;
                }
                Due::Done(value) => return Err(Stop::Done(value)),
                Due::Reduce(redex) => return Ok(redex),
            }
        }
    }
}
