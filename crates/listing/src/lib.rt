//! The listing of a flight: reads a sheet and tick lines, and gives a line for each tick with the global monitor's verdict.
#![tactic(auto)]

mod fault;
mod flight;
mod input;
mod laws;
mod line;
mod listing;
mod tick;

pub use laws::{digits_are_signals, whole_means};
pub use line::Line;
pub use listing::Listing;
