// The pairs, as tables. Channel 1 is a, or deliver; channel 2 is b, or the request to take over; channel 3 is c, or serve. The
// code of a name on channel c is 4 * c, and one more if it is prioritised; i_ is code 1.
use example_tables::choice::{EARLY, LATE};
use example_tables::rows;
use example_tables::small::SINGLE;
use systems::rows::Row;

pub struct Part {
    pub states: u32,
    pub start: usize,
    pub rows: &'static [Row],
}

pub struct Pair {
    pub name: &'static str,
    pub left: Part,
    pub right: Part,
}

// a.0 + i_.0: the prioritised inner action pre-empts a
const OFFERED: [Row; 2] = rows![(0, 4, 1), (0, 1, 1)];

// i_.0
const TAKEN: [Row; 1] = rows![(0, 1, 1)];

// a.0 + b_.0: a prioritised visible action pre-empts nothing
const BESIDE: [Row; 2] = rows![(0, 4, 1), (0, 9, 1)];

// The mirror as it is wanted. State 0 delivers until it is asked to take over; state 1 takes over at once; state 2 serves.
const WANTED: [Row; 4] = rows![(0, 4, 0), (0, 9, 1), (1, 1, 2), (2, 12, 2)];

// A mirror that still offers delivery when it is asked to take over, but takes over with priority.
const PRE_EMPTS: [Row; 5] = rows![(0, 4, 0), (0, 9, 1), (1, 4, 1), (1, 1, 2), (2, 12, 2)];

// A mirror that takes over without priority: a delivery can overtake the takeover, and is lost.
const OVERTAKES: [Row; 5] = rows![(0, 4, 0), (0, 9, 1), (1, 4, 1), (1, 0, 2), (2, 12, 2)];

pub const PAIRS: [Pair; 5] = [
    Pair {
        name: "a.(b.0 + c.0) and a.b.0 + a.c.0",
        left: Part {
            states: 3,
            start: 2,
            rows: &LATE,
        },
        right: Part {
            states: 4,
            start: 3,
            rows: &EARLY,
        },
    },
    Pair {
        name: "a.0 + i_.0 and i_.0",
        left: Part {
            states: 2,
            start: 0,
            rows: &OFFERED,
        },
        right: Part {
            states: 2,
            start: 0,
            rows: &TAKEN,
        },
    },
    Pair {
        name: "a.0 + b_.0 and b_.0",
        left: Part {
            states: 2,
            start: 0,
            rows: &BESIDE,
        },
        right: Part {
            states: 2,
            start: 0,
            rows: &SINGLE,
        },
    },
    Pair {
        name: "the mirror and one where takeover pre-empts delivery",
        left: Part {
            states: 3,
            start: 0,
            rows: &WANTED,
        },
        right: Part {
            states: 3,
            start: 0,
            rows: &PRE_EMPTS,
        },
    },
    Pair {
        name: "the mirror and one where delivery overtakes",
        left: Part {
            states: 3,
            start: 0,
            rows: &WANTED,
        },
        right: Part {
            states: 3,
            start: 0,
            rows: &OVERTAKES,
        },
    },
];
