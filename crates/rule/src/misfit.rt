//! Why a formula is no rule.

/// There would be over 32 signals; it has over 64 parts; or a part is an open reading or a signal past the last.
#[derive(Clone, Copy, PartialEq, Eq, Debug)]
pub enum Misfit {
    Signals,
    Parts,
    Leaf,
}
