ghost use Rattle.std.specs.Prelude.{◌≡◌};
ghost use Rattle.book.specs.Reports.{report as report_of, at_socket as report_at};

use super::BookFault;
use certificates::fault::Report;

// A refusal that names a socket.
fn at_socket(number: u8, socket: usize) -> Report
    ensures { result ≡ report_at number socket }
{
    Report {
        number,
        place: socket,
        side: 0,
        k: 0,
    }
}

impl BookFault {
    // The refusal in numbers.
    pub fn report(self) -> Report
        ensures { result ≡ report_of self }
    {
        match self {
            BookFault::NoState(socket) => at_socket(19, socket),
            BookFault::NoSocket(socket) => at_socket(22, socket),
            BookFault::Occupied(socket) => at_socket(23, socket),
            BookFault::Vacant(socket) => at_socket(24, socket),
            BookFault::ChangeOpen(socket) => at_socket(25, socket),
            BookFault::Full(socket) => at_socket(26, socket),
            BookFault::NoChange(socket) => at_socket(27, socket),
            BookFault::Sheet(fault) => fault.report(),
        }
    }
}
