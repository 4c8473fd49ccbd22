use super::limits;

// The limits of a table.
pub const MOST_STATES: u32 = limits::MOST_STATES as u32;

pub const MOST_ROWS: usize = 4096;

// A row of a table: a transition from one state by an action's code to another, as it is handed in.
#[derive(Clone, Copy, PartialEq, Eq, Debug)]
pub struct Row {
    pub from: u32,
    pub code: u16,
    pub to: u32,
}

// Why rows are no table. A faulty row is named by its index.
#[derive(Clone, Copy, PartialEq, Eq, Debug)]
pub enum RowRefusal {
    StateCount,
    RowCount,
    NoSuchState(usize),
    NoSuchAction(usize),
}

mod check;

pub use check::check_rows;
