use certificates::rows::EqualRow;
use example_tables::{pairs, rows};
use std::alloc::{AllocError, Global};
use systems::rows::Row;
use systems::table::Table;

// Four states: a.0 + i_.0 and i_.0, which are equal since a does not stand beside i_; nil; and a.0, which is equal to none.
pub const CHOICE: usize = 0;

pub const INNER: usize = 1;

pub const NIL: usize = 2;

pub const VISIBLE: usize = 3;

const ROWS: [Row; 4] = rows![(0, 4, 2), (0, 1, 2), (1, 1, 2), (3, 4, 2)];

pub fn table(heap: Global) -> Result<Table, AllocError> {
    Table::new(heap, 4, &ROWS)
}

// The equal sheet of the first two states.
pub const SHEET: [EqualRow; 2] = pairs![(CHOICE, INNER), (NIL, NIL)];

// No sheet of the first and the last.
pub const NO_SHEET: [EqualRow; 2] = pairs![(NIL, NIL), (CHOICE, VISIBLE)];
