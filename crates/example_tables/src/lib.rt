// Tables of worked examples, for programs and tests: the alternating bit protocol and its service, a late and an early choice,
// and some smaller ones.
#![tactic(auto)]

// The rows of a table, each as (from, code, to).
#[macro_export]
macro_rules! rows {
    ($(($from:expr, $code:expr, $to:expr)),* $(,)?) => {
        [$(systems::rows::Row { from: $from, code: $code, to: $to }),*]
    };
}

// The rows of an equal sheet, each as (left, right).
#[macro_export]
macro_rules! pairs {
    ($(($left:expr, $right:expr)),* $(,)?) => {
        [$(certificates::rows::EqualRow { left: $left, right: $right }),*]
    };
}

pub mod alternating_bit;
pub mod choice;
pub mod protocol;
pub mod small;
