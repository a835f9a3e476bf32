//! Reads a station sheet: its posts, their signals, and the rule.
#![tactic(auto)]

mod blank;
mod reading;
mod rule_reader;
mod sheet;

pub use blank::{Blank, MOST_BYTES};
pub use sheet::Sheet;
