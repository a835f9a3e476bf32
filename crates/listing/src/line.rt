//! A line of a listing.
ghost use Rattle.std.specs.Prelude.{◌≡◌};
ghost use Rattle.holds.specs.Cases.{plain};
ghost use Rattle.roster.specs.Faults.{answered};

use crate::fault::TickFault;
use monitor::Verdict;
use roster::{SheetFault, Spaced};
use std::fmt;

/// The names of the columns; a tick with the verdict after its step; or a hold with the numbers that it answers.
// `Held` has numbers and no fault: they are all that a line shows, and the definition `held` makes a line of them.
#[derive(Clone, Copy, PartialEq, Eq, Debug)]
pub enum Line {
    Columns,
    Row {
        tick: u32,
        verdict: Verdict,
    },
    Held {
        number: u8,
        line: Option<usize>,
        word: Option<usize>,
    },
}

impl From<SheetFault> for Line {
    ghost use Rattle.listing.specs.Listings.{held};

    ghost from_gives = { λ fault line. line ≡ held (answered fault) };

    fn from(fault: SheetFault) -> Line {
        Line::Held {
            number: fault.number(),
            line: fault.line(),
            word: fault.word(),
        }
    }
}

impl From<TickFault> for Line {
    ghost use Rattle.listing.specs.Faults.{fault_number};
    ghost use Rattle.listing.specs.Listings.{held};

    ghost from_gives = { λ fault line. line ≡ held (plain (fault_number fault)) };

    fn from(fault: TickFault) -> Line {
        Line::Held {
            number: fault.number(),
            line: None,
            word: None,
        }
    }
}

impl fmt::Display for Line {
    ghost use Rattle.std.specs.Prelude.{Some};
    ghost use Rattle.listing.specs.Listings.{line_text};

    ghost output = { λ l. Some (line_text l) };

    fn fmt<W: fmt::Write>(&self, f: &mut fmt::Formatter<W>) -> fmt::Result {
        match *self {
            Line::Columns => f.write_str("tick whole"),
            Line::Row { tick, verdict } => write!(f, "{tick} {verdict}"),
            Line::Held { number, line, word } => {
                let line = Spaced(line);
                let word = Spaced(word);
                write!(f, "hold {number}{line}{word}")
            }
        }
    }
}
