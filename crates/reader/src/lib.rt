//! Reads the words of a rule into a table of parts.
#![tactic(auto)]

mod building;
mod frame;
mod known;
mod misplaced;
mod progress;
mod reader;

pub use known::unknown;
pub use misplaced::Misplaced;
pub use reader::Reader;
