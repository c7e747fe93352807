//! The token of a trial.
ghost use Rattle.std.specs.Prelude.{◌≡◌};
ghost use Rattle.trial_layer.specs.Tokens.{token, token_of};

/// A trial's number, handed out at its opening. It has to be spent: `keep` and `put_back` take it, and nothing else does.
pub struct Token {
    number: u32,
}

/// Trials are numbered from 1, so no token there is can meet what its drop asks: a function that lets one go is not proved.
impl Drop for Token {
    fn drop(self)
        requires { self.number ≡ 0 }
    {
        let Token { number: _ } = self;
    }
}

impl Token {
    /// The token of this number, whether or not a trial has it; 0 is no trial's.
    pub fn of(number: u32) -> Option<Token>
        ensures { result ≡ token_of number }
    {
        if number == 0 {
            return None;
        }
        Some(Token { number })
    }

    /// The number on it.
    pub fn number(&self) -> u32
        ensures { result ≡ self.now.number }
    {
        self.number
    }

    /// The token of a trial that was opened.
    pub(crate) fn numbered(number: u32) -> Token
        ensures { result ≡ token number }
    {
        Token { number }
    }

    /// Takes it apart.
    pub(crate) fn spend(self) -> u32
        ensures { result ≡ self.number }
    {
        let Token { number } = self;
        number
    }
}
