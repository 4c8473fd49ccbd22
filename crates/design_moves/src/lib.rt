// Written designs as systems: the transitions of every state are worked out once, from those of the nodes below.
#![tactic(auto)]

mod joining;
mod listing;
mod making;
mod moves;
mod placing;
pub mod written;
