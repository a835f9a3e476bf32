//! What waits for its operand.
use parts::Unary;
use words::Connective;

/// An open bracket, a prefix, or a word between two formulas, with the place of the one on its left.
#[derive(Clone, Copy)]
pub enum Frame {
    Bracket,
    Before(Unary),
    Between(Connective, u16),
}
