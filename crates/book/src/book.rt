ghost use Rattle.std.specs.Prelude.{◌≡◌, ◌+◌, ◌≤◌};
ghost use Rattle.book.specs.Counts.{open_changes};

use crate::socket::Holding;

// The sockets have the numbers 1 to 16. The book allocates nothing, so they stand in an array.
const SOCKETS: usize = 16;

// The book: what fills each socket, and the counts. Every change that was proposed is taken, dropped or still open, and there are
// at most 65535 of them.
#[derive(Drop)]
pub struct Book {
    sockets: [Option<Holding>; SOCKETS],
    proposed: u16,
    taken: u16,
    dropped: u16,
    ghost counts: { taken + dropped + open_changes sockets ≡ proposed },
    // A u16 says so too, but a proof about a book that a loop made does not see it.
    ghost most: { proposed ≤ 65535 },
}

// The right to close one change, which proposing gives. It cannot be copied or let go: only closing spends it.
pub struct Slip {
    socket: usize,
    number: u16,
}

// What became of the change that a slip stands for.
#[derive(Clone, Copy, PartialEq, Eq, Debug)]
pub enum Closed {
    Taken,
    Dropped,
    Nothing,
}

mod calls;
mod pending;
mod questions;
mod runs;
mod slips;

pub use runs::{replay, runs_keep_designs};
