// Actions, and the parameters of the operators that act on them. A value of these types is lawful: nothing above tests it again.
#![tactic(auto)]

pub mod action;
pub mod pair;
pub mod recoding;
pub mod renaming;
