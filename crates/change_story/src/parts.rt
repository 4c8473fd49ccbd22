// The parts of the story, as one table. Channel 1 is log in, 2 is log out, 3 is deliver, 4 is the request to take over, which
// is prioritised (code 17), 5 is serve.
use example_tables::rows;
use systems::rows::Row;

pub const STATES: u32 = 11;

pub const SESSION: usize = 0;

pub const SESSION_REWRITTEN: usize = 2;

pub const MIRROR: usize = 4;

pub const MIRROR_REWRITTEN: usize = 7;

pub const MIRROR_THAT_DELIVERS: usize = 9;

pub const ROWS: [Row; 16] = rows![
    // the session: log in, log out
    (0, 4, 1),
    (1, 8, 0),
    // the session rewritten, with a state of its own for each second login
    (2, 4, 3),
    (3, 8, 0),
    // the mirror: delivers until it is asked to take over, takes over at once, and serves
    (4, 12, 4),
    (4, 17, 5),
    (5, 1, 6),
    (6, 20, 6),
    // the mirror rewritten: it still offers delivery beside the takeover, which pre-empts it
    (7, 12, 7),
    (7, 17, 8),
    (8, 12, 8),
    (8, 1, 6),
    // a mirror whose takeover is not prioritised: a delivery can come first
    (9, 12, 9),
    (9, 17, 10),
    (10, 12, 10),
    (10, 0, 6),
];
