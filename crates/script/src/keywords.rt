//! The words that a line begins with.
ghost use Rattle.std.specs.Prelude.{◌≡◌, refl};
ghost use Rattle.script.specs.Keywords.{keywords, keyword_in, wants_trials};

use crate::named::{Named, OfWord, by_name};

/// What a call does in a trial layer.
#[derive(Clone, Copy)]
pub(crate) enum TrialVerb {
    Open,
    Keep,
    PutBack,
}

/// What a call does.
#[derive(Clone, Copy)]
pub(crate) enum Verb {
    Check,
    Compile,
    List,
    Code,
    Start,
    Run,
    Trial(TrialVerb),
    Objects,
}

/// What a line is, by its first word.
#[derive(Clone, Copy)]
pub(crate) enum Keyword {
    Store,
    Lengths,
    Call(Verb),
}

impl Verb {
    /// Whether the call asks for a trial layer.
    pub(crate) fn wants_trials(self) -> bool
        ensures { result ≡ wants_trials self }
    {
        matches!(self, Verb::Trial(_))
    }
}

impl Named for Keyword {
    ghost names = { keywords };

    fn of_name(name: &str) -> Option<Keyword> {
        match name {
            "store" => Some(Keyword::Store),
            "lengths" => Some(Keyword::Lengths),
            "check" => Some(Keyword::Call(Verb::Check)),
            "compile" => Some(Keyword::Call(Verb::Compile)),
            "list" => Some(Keyword::Call(Verb::List)),
            "code" => Some(Keyword::Call(Verb::Code)),
            "start" => Some(Keyword::Call(Verb::Start)),
            "run" => Some(Keyword::Call(Verb::Run)),
            "open" => Some(Keyword::Call(Verb::Trial(TrialVerb::Open))),
            "keep" => Some(Keyword::Call(Verb::Trial(TrialVerb::Keep))),
            "put-back" => Some(Keyword::Call(Verb::Trial(TrialVerb::PutBack))),
            "objects" => Some(Keyword::Call(Verb::Objects)),
            _ => None,
        }
    }

    ghost names_are_low = { refl };
}

impl OfWord for Keyword {
    ghost in_word = { keyword_in };

    fn of_word(word: &[u8]) -> Option<Keyword> {
        by_name(word)
    }
}
