//! Linear-time formulas: their meaning on endless runs, shortening, progression and closing, and the laws of these.
#![tactic(auto)]

pub mod laws;
