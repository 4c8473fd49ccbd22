ghost use Rattle.std.specs.Prelude.{◌≡◌, option_map};
ghost use Rattle.book.specs.Plain.{at};
ghost use Rattle.book.specs.Views.{view};

use super::Book;
use super::pending::index_of;
use crate::socket::Holding;

impl Book {
    // What fills the socket, if it is a socket and filled.
    fn holding(&self, socket: usize) -> Option<Holding>
        ensures { result ≡ at (view self.now) socket }
    {
        self.sockets[index_of(socket)?]
    }

    // The state that the socket was filled with, if it is a socket and filled.
    pub fn first(&self, socket: usize) -> Option<usize>
        ensures { result ≡ option_map (λ h. h.first) (at (view self.now) socket) }
    {
        self.holding(socket).map(|h| h.first)
    }

    // The state that the socket holds now, if it is a socket and filled.
    pub fn current(&self, socket: usize) -> Option<usize>
        ensures { result ≡ option_map (λ h. h.current) (at (view self.now) socket) }
    {
        self.holding(socket).map(|h| h.current)
    }

    // How many changes were proposed.
    pub fn proposed(&self) -> u16
        ensures { result ≡ (view self.now).proposed }
    {
        self.proposed
    }

    // How many changes were taken.
    pub fn taken(&self) -> u16
        ensures { result ≡ (view self.now).taken }
    {
        self.taken
    }

    // How many changes were dropped.
    pub fn dropped(&self) -> u16
        ensures { result ≡ (view self.now).dropped }
    {
        self.dropped
    }
}
