// The checks of sheets of evidence. They are offered on a layer, allocate nothing, and go through the rows with a bitmap of
// the pairs.
#![tactic(auto)]

mod compared;
pub mod different;
pub mod equal;
pub mod pair_set;
mod questions;
