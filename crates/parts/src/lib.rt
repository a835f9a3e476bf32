//! A table of interned parts, in which formulas are made, shortened as they are built.
#![tactic(auto)]

mod lent;
mod part;
mod shape;
mod table;

pub use lent::{Lent, ROOM};
pub use part::{Binary, Junction, Part, Unary};
pub use table::Table;
