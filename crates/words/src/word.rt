//! The words of a rule.
use parts::Unary;

/// What stands for itself: a constant, or a signal by its number. A name that is no signal has the number of signals, which
/// is one past the last.
// The number is no option: the theorems of the grammar and of the reader tell by it a name that is no signal.
#[derive(Clone, Copy, PartialEq, Eq, Debug)]
pub enum Leaf {
    Const(bool),
    Signal(u8),
}

/// What stands between two formulas: `->`, `|`, `&`, `U`.
#[derive(Clone, Copy, PartialEq, Eq, Debug)]
pub enum Connective {
    Implies,
    Or,
    And,
    Until,
}

/// A word: a leaf, a prefix `!`, `X`, `F` or `G`, a word between two formulas, a bracket, or a run of name bytes that is no
/// name and can stand nowhere.
#[derive(Clone, Copy, PartialEq, Eq, Debug)]
pub enum Word {
    Atom(Leaf),
    Prefix(Unary),
    Infix(Connective),
    Open,
    Close,
    Stray,
}
