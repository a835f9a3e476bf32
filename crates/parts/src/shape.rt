//! What a constructor comes to.
use crate::part::Part;

/// The place of a part in the table, or a part to be looked up there.
// No `Result`: neither case is an error, and `At(x)` and `Is(part)` say which is which.
#[derive(Clone, Copy, PartialEq, Eq, Debug)]
pub enum Shape {
    At(u16),
    Is(Part),
}
