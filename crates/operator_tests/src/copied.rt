use super::listing::{check_moves, pair};
use example_tables::rows;
use relabelling::raised::Raised;
use std::test::Fail;
use systems::listed::Listed;
use systems::rows::Row;
use systems::system::System;
use systems::table::Table;

// A patient state, one that is not, and one without transitions.
const ROWS: [Row; 4] = rows![(0, 4, 1), (0, 8, 0), (1, 1, 2), (1, 4, 0)];

#[test]
fn a_copy_has_the_transitions_of_its_source(rt: HostRuntime) -> Result<(), Fail> {
    let x = Table::new(rt.alloc(), 3, &ROWS)?;
    let raised = Raised::new(pair(2, 0)?, &x);
    let copy = Listed::copy_of(rt.alloc(), &raised)?;
    assert_eq!(rt; copy.states(), 3);
    assert_eq!(rt; copy.width(), 2);
    check_moves(&rt, &copy, 0, &[(5, 1), (8, 0)])?;
    check_moves(&rt, &copy, 1, &[(1, 2), (4, 0)])?;
    check_moves(&rt, &copy, 2, &[])
}
