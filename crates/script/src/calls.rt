//! The calls of a script, and what a line lacks that is none.
ghost use Rattle.std.specs.Prelude.{◌≡◌, Some};
ghost use Rattle.script.specs.declared.calls.Unread.TheVariants.{Expected as expected, NoMemory};
ghost use Rattle.script.specs.Messages.{expected_text, unread_text};

use calculus::rows::Row;
use calculus::values::Value;
use std::alloc::AllocFailed;
use std::fmt;

/// One call.
#[derive(Drop)]
pub enum Call {
    Check {
        givens: u32,
        rows: Vec<Row>,
    },
    Compile {
        givens: u32,
        rows: Vec<Row>,
    },
    List {
        program: u32,
    },
    Code {
        program: u32,
    },
    Start {
        program: u32,
        allowance: u32,
        values: Vec<Value>,
    },
    Run {
        reductions: u32,
    },
    Trial(TrialCall),
    Objects,
}

/// One call to a trial layer.
#[derive(Clone, Copy)]
pub enum TrialCall {
    Open,
    Keep { trial: u32 },
    PutBack { trial: u32 },
}

/// What was expected where a line is no setting and no call.
#[derive(Clone, Copy, PartialEq, Eq, Debug)]
pub enum Expected {
    Keyword,
    StoreKind,
    SettingOnce,
    SettingFirst,
    AreaName,
    AreaOnce,
    AreaLength,
    Givens,
    Row,
    Program,
    Allowance,
    Value,
    Reductions,
    Trial,
    TrialLayer,
    LineEnd,
}

impl fmt::Display for Expected {
    ghost output = { λ e. Some (expected_text e) };

    fn fmt<W: fmt::Write>(&self, f: &mut fmt::Formatter<W>) -> fmt::Result {
        let text = match self {
            Expected::Keyword =>
                "a setting (store, lengths) or a call (check, compile, list, code, start, run, open, keep, put-back, objects)",
            Expected::StoreKind =>
                "flat, sharing, trial flat, trial sharing or trial trial sharing",
            Expected::SettingOnce => "each setting at most once",
            Expected::SettingFirst => "settings before the first call only",
            Expected::AreaName =>
                "an area's name: contents, operations, methods, cells, frames, objects or slots",
            Expected::AreaOnce => "each area's name at most once",
            Expected::AreaLength => "the area's length, from 0 to 4294967295",
            Expected::Givens => "the number of givens, from 0 to 4294967295",
            Expected::Row =>
                "a row: V, F or O with a signed number, S, U or M with a label from 0 to 65535, C, L, or KIND/LABEL/NUMBER",
            Expected::Program => "a program's number, from 0 to 4294967295",
            Expected::Allowance => "an allowance of reductions, from 0 to 4294967295",
            Expected::Value => "a value: a signed number, or @ and a location",
            Expected::Reductions => "a number of reductions, from 0 to 4294967295",
            Expected::Trial => "a trial's number, from 0 to 4294967295",
            Expected::TrialLayer =>
                "a store that is a trial layer (set it by 'store trial flat', say)",
            Expected::LineEnd => "nothing more on this line",
        };
        f.write_str(text)
    }
}

/// Why a line was not read.
#[derive(Clone, Copy)]
pub enum Unread {
    Expected(Expected),
    NoMemory,
}

impl fmt::Display for Unread {
    ghost output = { λ e. Some (unread_text e) };

    fn fmt<W: fmt::Write>(&self, f: &mut fmt::Formatter<W>) -> fmt::Result {
        match self {
            Self::Expected(what) => write!(f, "expected {what}"),
            Self::NoMemory => write!(f, "no memory is left for it"),
        }
    }
}

impl From<Expected> for Unread {
    ghost from_gives = { λ what r. r ≡ expected what };

    fn from(what: Expected) -> Unread {
        Unread::Expected(what)
    }
}

impl<T: Drop> From<AllocFailed<T>> for Unread {
    ghost from_gives = { λ _ r. r ≡ NoMemory };

    fn from(_error: AllocFailed<T>) -> Unread {
        Unread::NoMemory
    }
}
