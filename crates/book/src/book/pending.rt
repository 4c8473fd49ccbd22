ghost use Rattle.std.specs.Prelude.{◌≡◌, ◌-◌, if◌then◌else◌, Some, None};
ghost use Rattle.book.specs.Plain.{socket_number};
ghost use Rattle.book.specs.Openings.{Opened};

use super::{Book, SOCKETS};
use crate::socket::{Change, Holding};

// Where the socket of that number stands.
pub fn index_of(socket: usize) -> Option<usize>
    ensures { result ≡ (if socket_number socket then Some (socket - 1) else None) }
{
    if socket >= 1 && socket <= SOCKETS {
        Some(socket - 1)
    } else {
        None
    }
}

// An open change, with the socket that it is open at.
#[derive(Clone, Copy)]
pub struct Pending {
    pub index: usize,
    pub held: Holding,
    pub change: Change,
}

impl Book {
    // The open change with that number at that socket, if there is one.
    pub fn pending(&self, socket: usize, number: u16) -> Option<Pending>
        ensures { Opened self.now.sockets socket number result }
    {
        let index = index_of(socket)?;
        let held = self.sockets[index]?;
        let change = held.change?;
        if change.number != number {
            return None;
        }
        Some(Pending {
            index,
            held,
            change,
        })
    }
}
