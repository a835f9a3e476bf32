//! Rewritings of formulas in a table: one step of progression, and the closing of open readings.
#![tactic(auto)]

mod pass;
mod reading;
mod rewrite;

pub use pass::rewrite_all;
pub use reading::{Known, Row, readings_keep_meaning};
pub use rewrite::{Closing, Rewrite};
