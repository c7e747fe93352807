//! The script on standard input, and the answers on standard output.
ghost use Rattle.std.specs.Prelude.{◌≡◌, IfErr};
ghost use Rattle.std.specs.IoError.{error_kind};
ghost use Rattle.std.specs.declared.io.ErrorKind.TheVariants.{OutOfMemory};

use answers::answers::{Answer, Refused};
use calculus::stack::MOST_ENTRIES;
use script::calls::{Call, Unread};
use script::lines::read_line;
use script::settings::{Area, Settings, StoreKind};
use std::alloc::Global;
use std::io::{BufRead, BufReader, Lines, Stdin};
use std::{fmt, io};

/// A script that is read line by line.
#[derive(Drop)]
pub struct Script {
    rt: HostRuntime,
    lines: Lines<BufReader<Stdin>>,
    settings: Settings,
    /// The number of the line read last, counted from 1. It is kept from call to call, since a bad line is named by its place in the whole script.
    line: u64,
}

impl Script {
    /// The buffer that the script is read into is the one thing that can fail.
    pub fn new(rt: HostRuntime) -> io::Result<Script>
        ensures memory { IfErr result (λ e. error_kind e ≡ OutOfMemory) }
    {
        let lines = BufReader::new(rt.alloc(), rt.stdin())?.lines(rt.alloc());
        Ok(Script {
            rt,
            lines,
            settings: Settings::new(),
            line: 0,
        })
    }

    pub fn heap(&self) -> Global {
        self.rt.alloc()
    }

    /// How long an area is made: a longer one counts as no longer.
    pub fn length(&self, area: Area) -> usize {
        (self.settings.length(area) as usize).min(MOST_ENTRIES)
    }

    pub fn store_kind(&self) -> StoreKind {
        self.settings.store()
    }

    /// Prints one line.
    pub fn print<T: fmt::Display + Drop>(&self, text: T) -> io::Result<()> {
        self.rt.println(text)
    }

    /// Prints why a call is refused.
    pub fn print_refused<E: Into<Refused>>(&self, error: E) -> io::Result<()> {
        let refused: Refused = error.into();
        self.print(refused)
    }

    /// Prints what a call answers.
    pub fn print_answer<E: Into<Refused>>(&self, answer: Result<Answer, E>) -> io::Result<()> {
        match answer {
            Ok(answer) => self.print(answer),
            Err(error) => self.print_refused(error),
        }
    }

    /// The next call, past settings, comments and empty lines; none at the end of the script.
    pub fn next_call(&mut self) -> io::Result<Option<Call>> {
        // counted, since a loop has a measure: `for line in ..` would borrow the script that the body prints with
        for _ in 0..u64::MAX {
            let Some(line) = self.lines.next() else {
                return Ok(None);
            };
            self.line = self.line.saturating_add(1);
            let number = self.line;
            match line {
                Ok(line) => match read_line(self.rt.alloc(), &mut self.settings, line.as_bytes()) {
                    Ok(None) => {}
                    Ok(Some(call)) => return Ok(Some(call)),
                    Err(why) => {
                        eprintln!(self.rt; "line {number}: {why}")?;
                        return Err(io::Error::other(match why {
                            Unread::Expected(_) => "a bad line",
                            Unread::NoMemory => "no memory",
                        }));
                    }
                },
                Err(error) => {
                    eprintln!(self.rt;
                        "line {number}: expected text (UTF-8) that can be read: {error}"
                    )?;
                    return Err(error);
                }
            }
        }
        Ok(None)
    }
}
