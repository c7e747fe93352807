//! The calls of a case.
use crate::case::Case;
use crate::numbers::fitted;
use crate::saying::{say_objects, say_run, say_start};
use calculus::refusals::Refusal;
use machine_model::answers::RunAnswer;
use std::io;
use store::store::Store;

/// What a line calls.
#[derive(Clone, Copy)]
pub enum Call {
    Start { program: u32, allowance: u32 },
    Run(u32),
    /// Runs of one reduction until one does not pause.
    Pieces,
    /// What the store has.
    Objects,
}

/// The call of a line, if it is one.
pub fn call_of(name: &str, numbers: [i64; 6]) -> Option<Call> {
    let [first, second, ..] = numbers;
    match name {
        "start" => Some(Call::Start {
            program: fitted(first),
            allowance: fitted(second),
        }),
        "run" => Some(Call::Run(fitted(first))),
        "pieces" => Some(Call::Pieces),
        "objects" => Some(Call::Objects),
        _ => None,
    }
}

impl<S: Store> Case<'_, S> {
    fn start(&mut self, program: u32, allowance: u32) -> Result<(), Refusal> {
        let (code, givens) = self.area.lent();
        self.machine
            .start(&code, &self.store, program, givens, allowance)
    }

    fn run(&mut self, n: u32) -> RunAnswer {
        let (code, _) = self.area.lent();
        self.machine.run(&code, &mut self.store, n)
    }

    /// Runs of one reduction until one does not pause, and how many paused.
    fn pieces(&mut self, rt: &HostRuntime) -> io::Result<()> {
        for paused in 0..1000_u32 {
            let answer = self.run(1);
            match answer {
                RunAnswer::Paused { .. } => {}
                _ => {
                    println!(rt; "  paused {paused} times")?;
                    return say_run(rt, answer);
                }
            }
        }
        println!(rt; "  paused too often")
    }

    /// Makes a call, and says what it answers.
    pub fn make_call(&mut self, rt: &HostRuntime, call: Call) -> io::Result<()> {
        match call {
            Call::Start { program, allowance } => say_start(rt, self.start(program, allowance)),
            Call::Run(n) => say_run(rt, self.run(n)),
            Call::Pieces => self.pieces(rt),
            Call::Objects => say_objects(rt, &self.store),
        }
    }
}
