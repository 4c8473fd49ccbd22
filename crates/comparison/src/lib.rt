// The comparison of two systems under a layer, round by round.
#![tactic(auto)]

pub mod comparison;
pub mod pairs;
mod pass;
mod unstruck;
