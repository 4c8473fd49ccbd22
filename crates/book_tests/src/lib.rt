#![tactic(auto)]

// Tests of the change book, on a table of four states.
#[cfg(test)]
mod changes;
#[cfg(test)]
mod refusals;
#[cfg(test)]
mod states;
