// The alternating bit protocol as tables. Channels: send 1, receive 2, and for the bits 0 and 1: r 3 and 4, s 5 and 6, rack 7
// and 8, sack 9 and 10. State (s, m, r) of sender, medium and receiver is number (s * 5 + m) * 6 + r.
use certificates::rows::EqualRow;
use systems::rows::Row;

pub const SENDER: [Row; 12] = rows![
    (0, 5, 1),
    (0, 1, 0),
    (1, 23, 2),
    (2, 29, 3),
    (2, 33, 1),
    (2, 0, 1),
    (3, 5, 4),
    (3, 1, 3),
    (4, 27, 5),
    (5, 33, 0),
    (5, 29, 4),
    (5, 0, 4),
];

pub const MEDIUM: [Row; 8] = rows![
    (0, 21, 1),
    (0, 25, 2),
    (0, 37, 3),
    (0, 41, 4),
    (1, 15, 0),
    (2, 19, 0),
    (3, 31, 0),
    (4, 35, 0),
];

pub const RECEIVER: [Row; 12] = rows![
    (0, 13, 1),
    (0, 17, 5),
    (0, 0, 5),
    (1, 9, 2),
    (1, 1, 1),
    (2, 39, 3),
    (3, 17, 4),
    (3, 13, 2),
    (3, 0, 2),
    (4, 9, 5),
    (4, 1, 4),
    (5, 43, 0),
];

// What the protocol is to do: to take a message, to hand it over two inner steps later, and to be ready after two more.
pub const SERVICE: [Row; 8] = rows![
    (0, 5, 1),
    (0, 1, 0),
    (1, 1, 2),
    (2, 1, 3),
    (3, 9, 4),
    (3, 1, 3),
    (4, 1, 5),
    (5, 1, 0),
];

// A bisimulation of the protocol and its service.
pub const RELATION: [EqualRow; 12] = pairs![
    (0, 0),
    (30, 1),
    (66, 2),
    (61, 3),
    (62, 4),
    (81, 5),
    (93, 0),
    (123, 1),
    (165, 2),
    (154, 3),
    (155, 4),
    (174, 5),
];

// The same with another receiver state in the last pair.
pub const MISPRINT: [EqualRow; 12] = pairs![
    (0, 0),
    (30, 1),
    (66, 2),
    (61, 3),
    (62, 4),
    (81, 5),
    (93, 0),
    (123, 1),
    (165, 2),
    (154, 3),
    (155, 4),
    (177, 5),
];
