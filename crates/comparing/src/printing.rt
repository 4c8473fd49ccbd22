// An answer as text.
ghost use Rattle.std.specs.Prelude.{◌≡◌, Some};
ghost use Rattle.comparing.specs.Lines.{number as question_of, design_number as design_of, node_number as node_of, place, line};

use super::answer::{Answer, FileFault};
use std::fmt;

impl FileFault {
    // The number of the question that failed.
    pub fn question(self) -> u8
        ensures { result ≡ question_of self }
    {
        match self {
            FileFault::File(f) => f.number(),
            FileFault::First(f) | FileFault::Second(f) => f.number(),
            FileFault::FewCells => 11,
        }
    }

    // The design that it was asked of, 0 if of neither.
    pub fn design(self) -> u8
        ensures { result ≡ design_of self }
    {
        match self {
            FileFault::First(_) => 1,
            FileFault::Second(_) => 2,
            _ => 0,
        }
    }

    // The node that it was asked of, 0 if of none.
    pub fn node(self) -> usize
        ensures { result ≡ node_of self }
    {
        match self {
            FileFault::First(f) | FileFault::Second(f) => f.place(),
            _ => 0,
        }
    }
}

impl fmt::Display for FileFault {
    ghost output = { λ x. Some (place x) };

    fn fmt<W: fmt::Write>(&self, f: &mut fmt::Formatter<W>) -> fmt::Result {
        write!(f, "{} {} {}", self.question(), self.design(), self.node())
    }
}

impl fmt::Display for Answer {
    ghost output = { λ x. Some (line x) };

    fn fmt<W: fmt::Write>(&self, f: &mut fmt::Formatter<W>) -> fmt::Result {
        match *self {
            Answer::Equal(sweeps, zeros) => write!(f, "equal {sweeps} {zeros}"),
            Answer::Different(sweeps, round) => write!(f, "different {sweeps} {round}"),
            Answer::Refused(fault) => write!(f, "refused {fault}"),
        }
    }
}
