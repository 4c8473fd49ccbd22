#![tactic(auto)]

// Tests of the limits and refusals of codes, tables and comparisons.
#[cfg(test)]
mod codes;
#[cfg(test)]
mod comparing;
#[cfg(test)]
mod tables;
