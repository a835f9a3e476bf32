//! The global monitor: it sees all signals of a site and progresses the rule by them.
#![tactic(auto)]

mod hold;
mod laws;
mod monitor;
mod readings;
mod verdict;

pub use hold::Hold;
pub use laws::monitor_decides;
pub use monitor::{LAST_TICK, Monitor};
pub use verdict::Verdict;
