//! What is known of a rule.
ghost use Rattle.std.specs.Prelude.{◌≡◌, Some};
ghost use Rattle.monitor.specs.Verdicts.{as_verdict, verdict_letter, verdict_number};

use std::fmt;

/// The rule is broken whatever comes, it is kept whatever comes, or neither is known.
// No `Option<bool>`: a verdict is printed and has a number, and `Undecided` says more than `None`.
#[derive(Clone, Copy, PartialEq, Eq, Debug)]
pub enum Verdict {
    False = 0,
    True = 1,
    Undecided = 2,
}

impl Verdict {
    /// Its number.
    pub fn number(self) -> u8
        ensures { result ≡ verdict_number self }
    {
        self as u8
    }
}

impl From<Option<bool>> for Verdict {
    ghost from_gives = { λ o v. v ≡ as_verdict o };

    fn from(value: Option<bool>) -> Verdict {
        match value {
            Some(true) => Verdict::True,
            Some(false) => Verdict::False,
            None => Verdict::Undecided,
        }
    }
}

/// T for true, F for false, ? for undecided.
impl fmt::Display for Verdict {
    ghost output = { λ v. Some (verdict_letter v) };

    fn fmt<W: fmt::Write>(&self, f: &mut fmt::Formatter<W>) -> fmt::Result {
        f.write_str(match self {
            Verdict::True => "T",
            Verdict::False => "F",
            Verdict::Undecided => "?",
        })
    }
}
