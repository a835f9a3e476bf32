//! Numbers that stand behind a space.
use std::fmt;

/// A space and a number, where there is one.
#[derive(Clone, Copy, PartialEq, Eq, Debug)]
pub struct Spaced(pub Option<usize>);

impl fmt::Display for Spaced {
    ghost use Rattle.std.specs.Prelude.{Some};
    ghost use Rattle.roster.specs.Faults.{spaced};

    ghost output = { λ s. Some (spaced s.0) };

    fn fmt<W: fmt::Write>(&self, f: &mut fmt::Formatter<W>) -> fmt::Result {
        match self.0 {
            Some(n) => write!(f, " {n}"),
            None => Ok(()),
        }
    }
}
