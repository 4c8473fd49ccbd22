ghost use Rattle.std.specs.Prelude.{◌≡◌, MatchResult, Some, None};
ghost use Rattle.theory.specs.Tables.{transition};
ghost use Rattle.theory.specs.Faults.{first_fault, passed};
ghost use Rattle.actions.specs.Transitions.{move_of};
ghost use Rattle.systems.specs.Rows.{triple, number as number_of, place as place_of, row_fault, table_fault};

use super::{MOST_ROWS, MOST_STATES, Row, RowRefusal};
use actions::action::Action;

impl RowRefusal {
    // Each refusal has a number that its callers are promised.
    pub fn number(self) -> u8
        ensures { result ≡ number_of self }
    {
        match self {
            RowRefusal::StateCount => 1,
            RowRefusal::RowCount => 2,
            RowRefusal::NoSuchState(_) => 3,
            RowRefusal::NoSuchAction(_) => 4,
        }
    }

    pub fn place(self) -> usize
        ensures { result ≡ place_of self }
    {
        match self {
            RowRefusal::StateCount | RowRefusal::RowCount => 0,
            RowRefusal::NoSuchState(row) | RowRefusal::NoSuchAction(row) => row,
        }
    }
}

impl Row {
    // The row as a transition among n states.
    pub(crate) fn read(self, n: u32, index: usize) -> Result<(Action, usize), RowRefusal>
        ensures { MatchResult result (λ m. (row_fault n index self ≡ None) × (move_of m ≡ transition (triple self))) (λ f. row_fault n index self ≡ Some f) }
    {
        if self.from >= n || self.to >= n {
            return Err(RowRefusal::NoSuchState(index));
        }
        let action = Action::from_code(self.code).ok_or(RowRefusal::NoSuchAction(index))?;
        Ok((action, self.to as usize))
    }
}

fn check_each(n: u32, rows: &[Row]) -> Result<(), RowRefusal>
    ensures { result ≡ passed (first_fault (row_fault n) 0 rows.now) }
{
    for (i, row) in rows.iter().enumerate() {
        row.read(n, i)?;
    }
    Ok(())
}

// Whether the rows are those of a table of n states, none of which a table would pass over.
pub fn check_rows(n: u32, rows: &[Row]) -> Result<(), RowRefusal>
    ensures { result ≡ passed (table_fault n rows.now) }
{
    if !(1..=MOST_STATES).contains(&n) {
        return Err(RowRefusal::StateCount);
    }
    if rows.len() > MOST_ROWS {
        return Err(RowRefusal::RowCount);
    }
    check_each(n, rows)
}
