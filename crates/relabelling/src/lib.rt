// The operators that keep the states of a system and change its transitions: restriction, renaming, raising and lowering.
#![tactic(auto)]

pub mod lowered;
pub mod raised;
mod recoded;
pub mod relabelled;
pub mod renamed;
pub mod restriction;
