// A choice between b and c after a, and the same choice made with a. Channels: a 1, b 2, c 3.
use systems::rows::Row;

// a.(b.0 + c.0), its states numbered from the last
pub const LATE: [Row; 3] = rows![(2, 4, 1), (1, 8, 0), (1, 12, 0)];

// a.b.0 + a.c.0, likewise: the choice is made a step earlier
pub const EARLY: [Row; 4] = rows![(3, 4, 2), (3, 4, 1), (2, 8, 0), (1, 12, 0)];
