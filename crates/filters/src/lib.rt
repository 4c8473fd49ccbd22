// Asking a system for those transitions of a state whose actions pass a test.
#![tactic(auto)]

pub mod kept;
