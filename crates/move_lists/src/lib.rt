// Lists of transitions made from other lists: what restriction, renaming, raising and lowering do to those of a state.
#![tactic(auto)]

pub mod keeping;
pub mod list;
pub mod patience;
pub mod recoding;
