//! The posts and signals of a site, as the post lines of a sheet name them, and why a sheet is held back.
#![tactic(auto)]

mod fault;
mod postline;
mod roster;
mod spaced;

pub use fault::{Place, RuleFault, SheetFault, WordFault};
pub use roster::{MOST_POSTS, MOST_SIGNALS, Post, Roster, Signal};
pub use spaced::Spaced;
