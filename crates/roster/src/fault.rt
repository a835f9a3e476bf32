//! Why a sheet is held back.
ghost use Rattle.std.specs.Prelude.{◌≡◌, Some};
ghost use Rattle.roster.specs.Faults.{answered};
ghost use Rattle.roster.specs.declared.fault.RuleFault.TheVariants.{Words};
ghost use Rattle.roster.specs.declared.fault.SheetFault.TheVariants.{Rule};

use crate::spaced::Spaced;
use std::fmt;

/// Where a word of a rule stands: its line on the sheet and its number on the line, both from 1.
#[derive(Clone, Copy, PartialEq, Eq, Debug)]
pub struct Place {
    pub line: usize,
    pub word: usize,
}

/// A fault in the words of a rule: a word cannot stand there, the end counting as one more word; or a name is no signal.
#[derive(Clone, Copy, PartialEq, Eq, Debug)]
pub enum WordFault {
    Misplaced(Place),
    Unknown(Place),
}

/// A fault of a rule, with its line: it has over 200 words, a fault in the words, or over 64 parts.
#[derive(Clone, Copy, PartialEq, Eq, Debug)]
pub enum RuleFault {
    Long(usize),
    Words(WordFault),
    Large(usize),
}

/// A fault of a sheet: its bytes as a whole; and with its line a byte, the line's form, a ninth post line, a name that is none,
/// a name that stands again, a thirty-third signal, or the rule.
#[derive(Clone, Copy, PartialEq, Eq, Debug)]
pub enum SheetFault {
    Whole,
    Byte(usize),
    Form(usize),
    Posts(usize),
    Name(usize),
    Again(usize),
    Signals(usize),
    Rule(RuleFault),
}

impl From<WordFault> for RuleFault {
    ghost from_gives = { λ e r. r ≡ Words e };

    fn from(fault: WordFault) -> RuleFault {
        RuleFault::Words(fault)
    }
}

impl From<RuleFault> for SheetFault {
    ghost from_gives = { λ e r. r ≡ Rule e };

    fn from(fault: RuleFault) -> SheetFault {
        SheetFault::Rule(fault)
    }
}

impl SheetFault {
    /// The number of the hold, 1 to 11.
    pub fn number(self) -> u8
        ensures { result ≡ (answered self).number }
    {
        match self {
            SheetFault::Whole => 1,
            SheetFault::Byte(_) => 2,
            SheetFault::Form(_) => 3,
            SheetFault::Posts(_) => 4,
            SheetFault::Name(_) => 5,
            SheetFault::Again(_) => 6,
            SheetFault::Signals(_) => 7,
            SheetFault::Rule(rule) => rule.number(),
        }
    }

    /// The line, for every number but 1.
    pub fn line(self) -> Option<usize>
        ensures { result ≡ (answered self).line }
    {
        match self {
            SheetFault::Whole => None,
            SheetFault::Byte(line)
            | SheetFault::Form(line)
            | SheetFault::Posts(line)
            | SheetFault::Name(line)
            | SheetFault::Again(line)
            | SheetFault::Signals(line) => Some(line),
            SheetFault::Rule(rule) => Some(rule.line()),
        }
    }

    /// The word, for 9 and 10.
    pub fn word(self) -> Option<usize>
        ensures { result ≡ (answered self).word }
    {
        match self {
            SheetFault::Rule(RuleFault::Words(fault)) => Some(fault.place().word),
            _ => None,
        }
    }
}

impl RuleFault {
    fn number(self) -> u8
        ensures { result ≡ (answered (Rule self)).number }
    {
        match self {
            RuleFault::Long(_) => 8,
            RuleFault::Words(WordFault::Misplaced(_)) => 9,
            RuleFault::Words(WordFault::Unknown(_)) => 10,
            RuleFault::Large(_) => 11,
        }
    }

    fn line(self) -> usize
        ensures { Some result ≡ (answered (Rule self)).line }
    {
        match self {
            RuleFault::Long(line) | RuleFault::Large(line) => line,
            RuleFault::Words(fault) => fault.place().line,
        }
    }
}

impl WordFault {
    fn place(self) -> Place
        ensures line { Some result.line ≡ (answered (Rule (Words self))).line }
        ensures word { Some result.word ≡ (answered (Rule (Words self))).word }
    {
        match self {
            WordFault::Misplaced(place) | WordFault::Unknown(place) => place,
        }
    }
}

impl fmt::Display for SheetFault {
    ghost use Rattle.roster.specs.Faults.{fault_text};

    ghost output = { λ fault. Some (fault_text fault) };

    fn fmt<W: fmt::Write>(&self, f: &mut fmt::Formatter<W>) -> fmt::Result {
        let number = self.number();
        let line = Spaced(self.line());
        let word = Spaced(self.word());
        write!(f, "{number}{line}{word}")
    }
}
