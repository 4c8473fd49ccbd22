// A row of an equal sheet: a pair of states.
#[derive(Clone, Copy, PartialEq, Eq, Debug)]
pub struct EqualRow {
    pub left: usize,
    pub right: usize,
}

// A row of a different sheet: a pair of states, and the k-th move of its left state (side 0) or of its right state (side 1).
// The side is a raw number, as the row is handed in: a sheet may name a side that is none, and is then refused.
#[derive(Clone, Copy, PartialEq, Eq, Debug)]
pub struct DifferentRow {
    pub left: usize,
    pub right: usize,
    pub side: u8,
    pub k: usize,
}
