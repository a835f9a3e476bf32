//! Why words are not a rule.

/// The first word at fault, by its place from 0; the end is one more word.
#[derive(Clone, Copy, PartialEq, Eq, Debug)]
pub struct Misplaced {
    pub word: usize,
}
