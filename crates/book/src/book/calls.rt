ghost use Rattle.std.specs.Prelude.{◌≡◌, ◌+◌, OnErr};
ghost use Rattle.theory.specs.Faults.{passed};
ghost use Rattle.book.specs.Plain.{blank, at, change_in, enter_fault, entered, propose_fault, with_proposed, Proves, closed};
ghost use Rattle.book.specs.Views.{view, Slipped, ProofAnswer, outcome};

use super::pending::index_of;
use super::{Book, Closed, SOCKETS, Slip};
use crate::fault::BookFault;
use crate::socket::{Change, Holding};
use certificates::rows::EqualRow;
use layers::standing::Standing;
use sheets::equal::check_equal;
use systems::system::System;

impl Book {
    pub fn new() -> Book
        ensures { view result ≡ blank }
    {
        Book {
            sockets: [None; SOCKETS],
            proposed: 0,
            taken: 0,
            dropped: 0,
        }
    }

    // Fills an empty socket with a state of the system.
    pub fn enter<S: System>(
        &mut self,
        system: &S,
        socket: usize,
        state: usize,
    ) -> Result<(), BookFault>
        ensures step { view self.new ≡ entered (S.System.meaning system.now).n (view self.old) socket state }
        ensures answer { result ≡ passed (enter_fault (S.System.meaning system.now).n (view self.old) socket state) }
        ensures same { OnErr result (self.new ≡ self.old) }
    {
        let i = index_of(socket).ok_or(BookFault::NoSocket(socket))?;
        if state >= system.states() {
            return Err(BookFault::NoState(socket));
        }
        let held = self.sockets[i];
        if held.is_some() {
            return Err(BookFault::Occupied(socket));
        }
        self.sockets[i] = Some(Holding {
            first: state,
            current: state,
            change: None,
        });
        Ok(())
    }

    // Opens a change at a filled socket that has none, and gives the right to close it.
    pub fn propose<S: System>(
        &mut self,
        system: &S,
        socket: usize,
        state: usize,
    ) -> Result<Slip, BookFault>
        ensures step { view self.new ≡ with_proposed (S.System.meaning system.now).n (view self.old) socket state }
        ensures answer { Slipped (propose_fault (S.System.meaning system.now).n (view self.old) socket state) socket (self.old.proposed + 1) result }
        ensures same { OnErr result (self.new ≡ self.old) }
    {
        let i = index_of(socket).ok_or(BookFault::NoSocket(socket))?;
        if state >= system.states() {
            return Err(BookFault::NoState(socket));
        }
        let held = self.sockets[i].ok_or(BookFault::Vacant(socket))?;
        if held.change.is_some() {
            return Err(BookFault::ChangeOpen(socket));
        }
        let number = self.proposed.checked_add(1).ok_or(BookFault::Full(socket))?;
        self.proposed = number;
        self.sockets[i] = Some(Holding {
            change: Some(Change {
                state,
                number,
                proved: false,
            }),
            ..held
        });
        Ok(Slip { socket, number })
    }

    // Puts an equal sheet for the current part and the state proposed against the system, and marks the slip's change as proved.
    pub fn prove<S: System>(
        &mut self,
        system: &S,
        slip: &Slip,
        rows: &[EqualRow],
    ) -> Result<(), BookFault>
        ensures step { Proves (S.System.meaning system.now) (view self.old) slip.now.socket slip.now.number rows.now (view self.new) }
        ensures answer { ProofAnswer (S.System.meaning system.now) (view self.old) slip.now.socket slip.now.number rows.now result }
        ensures same { OnErr result (self.new ≡ self.old) }
    {
        let p = self
            .pending(slip.socket, slip.number)
            .ok_or(BookFault::NoChange(slip.socket))?;
        check_equal::<Standing, S, S>(system, system, rows, p.held.current, p.change.state)?;
        self.sockets[p.index] = Some(Holding {
            change: Some(Change {
                proved: true,
                ..p.change
            }),
            ..p.held
        });
        Ok(())
    }

    // Ends the change of the slip, if it is open: a proved one is taken, so that the state proposed becomes the current part.
    pub fn close(&mut self, slip: Slip) -> Closed
        ensures step { view self.new ≡ closed (view self.old) slip.socket slip.number }
        ensures answer { result ≡ outcome (change_in (at (view self.old) slip.socket) slip.number) }
    {
        let pending = self.pending(slip.socket, slip.number);
        slip.spend();
        let Some(p) = pending else {
            return Closed::Nothing;
        };
        if p.change.proved {
            self.taken += 1;
            self.sockets[p.index] = Some(Holding {
                current: p.change.state,
                change: None,
                ..p.held
            });
            Closed::Taken
        } else {
            self.dropped += 1;
            self.sockets[p.index] = Some(Holding {
                change: None,
                ..p.held
            });
            Closed::Dropped
        }
    }
}
