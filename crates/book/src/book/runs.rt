ghost use Rattle.book.specs.Plain.{blank, Step, Run};
ghost use Rattle.book.specs.Promises.{KeepsDesigns, RunsKeepDesigns, ChangesCounted};
ghost use Rattle.book.specs.Requests.{call_of, calls_of};
ghost use Rattle.book.specs.Views.{view};

use super::{Book, Slip};
use crate::request::Request;
use systems::system::System;

impl Book {
    // Makes the call that is requested, and passes over its answer.
    fn make<S: System>(&mut self, system: &S, request: &Request)
        ensures { Step (S.System.meaning system.now) (view self.old) (call_of request.now) (view self.new) }
    {
        match request {
            Request::Enter { socket, state } => {
                let _ = self.enter(system, *socket, *state);
            }
            Request::Propose { socket, state } => {
                if let Ok(slip) = self.propose(system, *socket, *state) {
                    slip.spend();
                }
            }
            Request::Prove {
                socket,
                number,
                rows,
            } => {
                let slip = Slip {
                    socket: *socket,
                    number: *number,
                };
                let _ = self.prove(system, &slip, rows.as_slice());
                slip.spend();
            }
            Request::Close { socket, number } => {
                let slip = Slip {
                    socket: *socket,
                    number: *number,
                };
                let _ = self.close(slip);
            }
        }
    }
}

// A new book after the requested calls, in their order, refused ones included. Its parts and counts are the plain book's, and
// every design made of its filled sockets is equal, with the current parts, to what it is with the first ones.
pub fn replay<S: System>(system: &S, requests: &[Request]) -> Book
    ensures run { Run (S.System.meaning system.now) blank (calls_of requests.now) (view result) }
    ensures designs { KeepsDesigns (S.System.meaning system.now) (view result) }
    ensures counts { ChangesCounted (view result) }
{
    let mut book = Book::new();
    for request in requests {
        book.make(system, request);
    }
    book
}

// The same of all runs of the plain book, on every lawful system. The function only carries the theorem.
pub fn runs_keep_designs() -> u8
    ensures { RunsKeepDesigns }
{
    0
}
