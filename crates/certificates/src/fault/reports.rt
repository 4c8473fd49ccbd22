ghost use Rattle.std.specs.Prelude.{◌≡◌};
ghost use Rattle.certificates.specs.Faults.{report as report_of};

use super::{Report, SheetFault};

const NOTHING: Report = Report {
    number: 0,
    place: 0,
    side: 0,
    k: 0,
};

impl SheetFault {
    pub fn report(self) -> Report
        ensures { result ≡ report_of self }
    {
        match self {
            SheetFault::RowCount => Report {
                number: 14,
                ..NOTHING
            },
            SheetFault::NoSuchState { row } => Report {
                number: 15,
                place: row,
                ..NOTHING
            },
            SheetFault::NoSuchMove { row } => Report {
                number: 16,
                place: row,
                ..NOTHING
            },
            SheetFault::Unanswered { row, side, k } => Report {
                number: 17,
                place: row,
                side,
                k,
            },
            SheetFault::NotAsked => Report {
                number: 18,
                ..NOTHING
            },
        }
    }
}
