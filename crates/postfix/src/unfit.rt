//! Why a text has no monitor.
use rule::Misfit;
use std::alloc::AllocError;
use std::error::Error;
use std::fmt;

/// It is no formula, or not one that the table has room for; it is too long for the memory that is left; or the formula is no rule.
#[derive(Debug, Drop)]
pub enum Unfit {
    NoFormula,
    TooLong(AllocError),
    NoRule(Misfit),
}

impl From<Misfit> for Unfit {
    fn from(misfit: Misfit) -> Unfit {
        Unfit::NoRule(misfit)
    }
}

impl fmt::Display for Unfit {
    fn fmt<W: fmt::Write>(&self, f: &mut fmt::Formatter<W>) -> fmt::Result {
        f.write_str(match self {
            Unfit::NoFormula | Unfit::TooLong(_) => "no formula",
            Unfit::NoRule(Misfit::Signals) => "over 32 signals, no rule",
            Unfit::NoRule(Misfit::Parts) => "over 64 parts, no rule",
            Unfit::NoRule(Misfit::Leaf) => "an open reading or an unknown signal, no rule",
        })
    }
}

impl Error for Unfit {}
