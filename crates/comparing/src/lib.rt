// From the bytes of a file to the answer whether its two designs are equal.
#![tactic(auto)]

pub mod answer;
pub mod asking;
mod judging;
pub mod printing;
mod stop;
