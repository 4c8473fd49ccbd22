#![tactic(auto)]

// Worked examples of the operators, proved safe and run.
#[cfg(test)]
mod composed;
#[cfg(test)]
mod copied;
#[cfg(test)]
mod listing;
#[cfg(test)]
mod relabelled;
