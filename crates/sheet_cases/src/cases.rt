// The sheets that are put before the checks, each with a name and the states that it is to be for.
use certificates::rows::{DifferentRow, EqualRow};
use example_tables::alternating_bit::{MISPRINT, RELATION};
use example_tables::pairs;
use example_tables::small::FIRST;

// RELATION with two of its rows once more
const REPEATED: [EqualRow; 14] = pairs![
    (0, 0),
    (30, 1),
    (66, 2),
    (61, 3),
    (62, 4),
    (81, 5),
    (93, 0),
    (123, 1),
    (165, 2),
    (154, 3),
    (155, 4),
    (174, 5),
    (30, 1),
    (0, 0),
];

const NO_SUCH_STATE: [EqualRow; 1] = pairs![(180, 3)];

// Equal sheets of the protocol and its service.
pub const EQUAL_SHEETS: [(&str, &[EqualRow], usize, usize); 7] = [
    ("protocol", &RELATION, 0, 0),
    ("misprinted", &MISPRINT, 0, 0),
    ("rows repeated", &REPEATED, 0, 0),
    ("no such state", &NO_SUCH_STATE, 0, 0),
    ("another pair", &RELATION, 1, 1),
    ("asked states that do not exist", &RELATION, 500, 0),
    ("no rows", &[], 0, 0),
];

const NO_SIDE: DifferentRow = DifferentRow { side: 2, ..FIRST };

const NO_MOVE: DifferentRow = DifferentRow { k: 2, ..FIRST };

const ANSWERED: DifferentRow = DifferentRow { k: 1, ..FIRST };

// Different sheets of one row, of the two small systems.
pub const DIFFERENT_SHEETS: [(&str, DifferentRow, usize, usize); 5] = [
    ("choice", FIRST, 0, 0),
    ("no such side", NO_SIDE, 0, 0),
    ("no such move", NO_MOVE, 0, 0),
    ("answered", ANSWERED, 0, 0),
    ("another last row", FIRST, 1, 1),
];
