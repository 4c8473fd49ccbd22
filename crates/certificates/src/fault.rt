// Why a sheet is refused.
#[derive(Clone, Copy, PartialEq, Eq, Debug)]
pub enum SheetFault {
    RowCount,
    NoSuchState { row: usize },
    NoSuchMove { row: usize },
    Unanswered { row: usize, side: u8, k: usize },
    NotAsked,
}

// A refusal in numbers: that of the question, its place, and the side and the move that it names.
// What it does not name is promised as 0, so no number is optional.
#[derive(Clone, Copy, PartialEq, Eq, Debug)]
pub struct Report {
    pub number: u8,
    pub place: usize,
    pub side: u8,
    pub k: usize,
}

mod reports;
