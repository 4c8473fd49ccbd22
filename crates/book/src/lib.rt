// The change book: sixteen sockets, each filled with a state of a system. A state is exchanged only for one that a certificate
// shows to be equal, so that every design made of the sockets stays equal to what it first was.
#![tactic(auto)]

pub mod book;
pub mod fault;
pub mod request;
pub mod socket;
