//! One part of a formula.
ghost use Rattle.std.specs.Prelude.{Some};
ghost use Rattle.parts.specs.Signs.{binary_sign, unary_sign};

use std::fmt;

/// A sign with one operand: not, X, F, G.
#[derive(Clone, Copy, PartialEq, Eq, Debug)]
pub enum Unary {
    Not,
    Next,
    Finally,
    Globally,
}

/// And, or.
#[derive(Clone, Copy, PartialEq, Eq, Debug)]
pub enum Junction {
    And,
    Or,
}

impl Junction {
    ghost use Rattle.std.specs.Prelude.{◌≡◌};
    ghost use Rattle.temporal.specs.Shorten.{unit};
    ghost use Rattle.parts.specs.Places.{op};

    /// The constant that leaves the other operand.
    pub(crate) fn unit(self) -> bool
        ensures { result ≡ unit (op self) }
    {
        self == Junction::And
    }
}

/// A sign with two operands: and, or, U.
#[derive(Clone, Copy, PartialEq, Eq, Debug)]
pub enum Binary {
    Join(Junction),
    Until,
}

/// A constant, a signal, the open reading of a signal at a tick, or a sign over operands, which are given by their places.
#[derive(Clone, Copy, PartialEq, Eq, Debug)]
pub enum Part {
    Const(bool),
    Signal(u8),
    Open(u8, u32),
    One(Unary, u16),
    Two(Binary, u16, u16),
}

impl fmt::Display for Unary {
    ghost output = { λ s. Some (unary_sign s) };

    fn fmt<W: fmt::Write>(&self, f: &mut fmt::Formatter<W>) -> fmt::Result {
        f.write_str(match self {
            Unary::Not => "!",
            Unary::Next => "X",
            Unary::Finally => "F",
            Unary::Globally => "G",
        })
    }
}

impl fmt::Display for Binary {
    ghost output = { λ s. Some (binary_sign s) };

    fn fmt<W: fmt::Write>(&self, f: &mut fmt::Formatter<W>) -> fmt::Result {
        f.write_str(match self {
            Binary::Join(Junction::And) => "&",
            Binary::Join(Junction::Or) => "|",
            Binary::Until => "U",
        })
    }
}
