ghost use Rattle.std.specs.Prelude.{Some};
ghost use Rattle.reports.specs.Lines.{checked_line, written_line};

use certificates::fault::SheetFault;
use std::fmt;
use writers::refusal::WriteRefusal;

// What the check of a sheet answers.
#[derive(Clone, Copy)]
pub struct Checked(pub Result<(), SheetFault>);

impl fmt::Display for Checked {
    ghost output = { λ x. Some (checked_line x.0) };

    fn fmt<W: fmt::Write>(&self, f: &mut fmt::Formatter<W>) -> fmt::Result {
        match self.0 {
            Ok(()) => write!(f, "accepted"),
            Err(fault) => {
                let report = fault.report();
                write!(
                    f,
                    "refused {} {} {} {}",
                    report.number, report.place, report.side, report.k
                )
            }
        }
    }
}

// What a writer answers: how many rows it wrote, if it did.
#[derive(Clone, Copy)]
pub struct Written(pub Result<usize, WriteRefusal>);

impl fmt::Display for Written {
    ghost output = { λ x. Some (written_line x.0) };

    fn fmt<W: fmt::Write>(&self, f: &mut fmt::Formatter<W>) -> fmt::Result {
        match self.0 {
            Ok(count) => write!(f, "{count} rows"),
            Err(refusal) => write!(f, "refused {}", refusal.number()),
        }
    }
}
