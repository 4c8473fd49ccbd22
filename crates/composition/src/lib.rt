// The operators that make larger systems: nil, prefix, sum and parallel.
#![tactic(auto)]

mod meetings;
pub mod nil;
pub mod parallel;
mod placed;
pub mod prefix;
mod size;
pub mod sum;
