// A whole comparison in one call: from begin until it is settled, and on to the verdict.
#![tactic(auto)]

pub mod decide;
pub mod relations;
pub mod settling;
