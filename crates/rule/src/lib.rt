//! A rule: a formula that is fit to be monitored over so many signals.
#![tactic(auto)]

mod misfit;
mod plain;
mod rule;

pub use misfit::Misfit;
pub use plain::plain_means;
pub use rule::{RULE_PARTS, Rule, SIGNALS};
