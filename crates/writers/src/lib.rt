// The writers of sheets of evidence: what a settled comparison has found, listed row by row. They allocate nothing, and their
// answers are exact on any cells.
#![tactic(auto)]

mod cells;
pub mod different;
pub mod equal;
mod lower;
pub mod refusal;
mod struck;
