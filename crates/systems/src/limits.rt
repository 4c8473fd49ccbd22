// The limits of every system: no operator and no table makes a larger one.
pub const MOST_STATES: usize = 1024;

pub const WIDEST: usize = 4096;
