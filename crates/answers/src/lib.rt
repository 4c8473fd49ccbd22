// Answers: which transitions of one state no transition of another answers, within a set of pairs or outside it.
#![tactic(auto)]

pub mod held;
pub mod search;
pub mod state;
pub mod states;
