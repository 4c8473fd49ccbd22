// Small tables. Channels: a 1, b 2.
use certificates::rows::DifferentRow;
use systems::rows::Row;

// a.0 + b_.0, with a last state for each
pub const CHOICE: [Row; 2] = rows![(0, 4, 1), (0, 9, 2)];

// b_.0
pub const SINGLE: [Row; 1] = rows![(0, 9, 1)];

// a transition by a from a state to itself
pub const LOOP: Row = Row {
    from: 0,
    code: 4,
    to: 0,
};

// The first move of the first left state: it tells CHOICE and SINGLE apart at once.
pub const FIRST: DifferentRow = DifferentRow {
    left: 0,
    right: 0,
    side: 0,
    k: 0,
};

// Cells for CHOICE and SINGLE that no comparison left.
pub const SPOILT: [u32; 6] = [4000000000, 0, 0, 7, 3000000000, 2];
