//! The grammar of a rule: which words are which formula, and which word is the first at fault.
#![tactic(auto)]

pub mod laws;
