// Files of two written designs.
#![tactic(auto)]

mod fields;
mod layout;
pub mod reader;
pub mod refusal;
