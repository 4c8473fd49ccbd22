// Written designs: nodes, what they mean, and the questions that they have to pass.
#![tactic(auto)]

pub mod check;
pub mod entry;
pub mod node;
pub mod operation;
pub mod outline;
pub mod reading;
pub mod refusal;
pub mod shape;
mod shaping;
