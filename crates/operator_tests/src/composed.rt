use super::listing::{action, check_moves};
use composition::nil::Nil;
use composition::parallel::Parallel;
use composition::prefix::Prefix;
use composition::sum::Sum;
use example_tables::rows;
use example_tables::small::LOOP;
use std::test::Fail;
use systems::system::System;
use systems::table::Table;

#[test]
fn states_of_pairs(rt: HostRuntime) -> Result<(), Fail> {
    let a = Table::new(rt.alloc(), 32, &[])?;
    let b = Table::new(rt.alloc(), 33, &[])?;
    assert_eq!(rt; Parallel::new(&a, &a).states(), 1024);
    assert_eq!(rt; Parallel::new(&b, &a).states(), 0);
    assert_eq!(rt; Parallel::new(&a, &b).states(), 0);
    Ok(())
}

#[test]
fn widths_of_pairs(rt: HostRuntime) -> Result<(), Fail> {
    let a = Table::new(rt.alloc(), 1, &[LOOP; 63])?;
    let b = Table::new(rt.alloc(), 1, &[LOOP; 64])?;
    assert_eq!(rt; Parallel::new(&a, &a).width(), 4095);
    assert_eq!(rt; Parallel::new(&b, &a).width(), 0);
    assert_eq!(rt; Parallel::new(&b, &a).states(), 0);
    Ok(())
}

#[test]
fn starts(rt: HostRuntime) -> Result<(), Fail> {
    let rows = rows![(1, 4, 0), (2, 8, 1)];
    let x = Table::new(rt.alloc(), 3, &rows)?;
    let p = Prefix::new(action(13)?, 2, &x);
    check_moves(&rt, &p, 0, &[(13, 3)])?;
    check_moves(&rt, &p, 3, &[(8, 2)])?;
    check_moves(&rt, &p, 2, &[(4, 1)])?;
    check_moves(&rt, &p, 4, &[])?;
    assert_eq!(rt; Prefix::new(action(13)?, 3, &x).states(), 0);
    let s = Sum::new(2, &x, 1, &x);
    check_moves(&rt, &s, 0, &[(8, 2), (4, 4)])?;
    check_moves(&rt, &s, 3, &[(8, 2)])?;
    check_moves(&rt, &s, 6, &[(8, 5)])?;
    assert_eq!(rt; s.states(), 7);
    assert_eq!(rt; Sum::new(2, &x, 3, &x).states(), 0);
    Ok(())
}

// Only what is of one class and one channel meets, a name and a co-name. Inner actions never do.
#[test]
fn synchronisations(rt: HostRuntime) -> Result<(), Fail> {
    let a = Prefix::new(action(4)?, 0, Nil::new());
    let co_a = Prefix::new(action(6)?, 0, Nil::new());
    let high_co_a = Prefix::new(action(7)?, 0, Nil::new());
    let high_a = Prefix::new(action(5)?, 0, Nil::new());
    let inner = Prefix::new(action(0)?, 0, Nil::new());
    check_moves(&rt, &Parallel::new(&a, &high_co_a), 0, &[(4, 2), (7, 1)])?;
    check_moves(&rt, &Parallel::new(&inner, &inner), 0, &[(0, 2), (0, 1)])?;
    check_moves(&rt, &Parallel::new(&a, &a), 0, &[(4, 2), (4, 1)])?;
    check_moves(&rt, &Parallel::new(&a, &co_a), 0, &[(4, 2), (6, 1), (0, 3)])?;
    check_moves(
        &rt,
        &Parallel::new(&high_co_a, &high_a),
        0,
        &[(7, 2), (5, 1), (1, 3)],
    )
}
