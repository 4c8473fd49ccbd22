// What programs share: the answers of checks and writers as they are printed.
#![tactic(auto)]

pub mod printed;
