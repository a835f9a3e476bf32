//! One formula in memory of its own, its parts in the walk's order: step, closing, count, earliest open tick.
#![tactic(auto)]

mod compact;
mod earliest;
mod numbering;
mod workspace;

pub use compact::{Compact, MOST, TooMany};
pub use earliest::earlier_of;
pub use numbering::{Numbering, number};
pub use workspace::Workspace;
