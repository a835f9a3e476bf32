//! The rules of the worked examples.

/// A rule as a sheet has it, with its operands before their signs, and over how many signals it is.
#[derive(Clone, Copy, PartialEq, Eq, Debug)]
pub(crate) struct Sample {
    pub(crate) text: &'static str,
    pub(crate) postfix: &'static str,
    pub(crate) signals: u8,
}

pub(crate) const FINALLY_P: Sample = Sample {
    text: "F p",
    postfix: "pF",
    signals: 1,
};

pub(crate) const P_UNTIL_Q: Sample = Sample {
    text: "p U q",
    postfix: "pqU",
    signals: 2,
};

pub(crate) const NEXT_P: Sample = Sample {
    text: "X p",
    postfix: "pX",
    signals: 1,
};

pub(crate) const ALWAYS_FINALLY_P: Sample = Sample {
    text: "G F p",
    postfix: "pFG",
    signals: 1,
};

pub(crate) const P_AND_P_AND_Q: Sample = Sample {
    text: "p & (p & q)",
    postfix: "ppq&&",
    signals: 2,
};

pub(crate) const P_OR_NOT_P: Sample = Sample {
    text: "p | !p",
    postfix: "pp!|",
    signals: 1,
};

pub(crate) const ALWAYS_TRUE: Sample = Sample {
    text: "G true",
    postfix: "tG",
    signals: 1,
};
