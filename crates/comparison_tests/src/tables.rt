use example_tables::rows;
use example_tables::small::LOOP;
use std::test::Fail;
use systems::rows::{RowRefusal, check_rows};
use systems::system::System;
use systems::table::Table;

#[test]
fn rows_are_refused_by_number_and_place(rt: HostRuntime) {
    let past = rows![(0, 4, 0), (0, 4, 2)];
    let unlawful = rows![(0, 4, 0), (0, 4, 0), (0, 244, 1)];
    assert_eq!(rt; check_rows(0, &[]), Err(RowRefusal::StateCount));
    assert_eq!(rt; check_rows(1025, &[]), Err(RowRefusal::StateCount));
    assert_eq!(rt; check_rows(1024, &[]), Ok(()));
    assert_eq!(rt; check_rows(2, &past), Err(RowRefusal::NoSuchState(1)));
    assert_eq!(rt; check_rows(2, &unlawful), Err(RowRefusal::NoSuchAction(2)));
    assert_eq!(rt; RowRefusal::NoSuchAction(2).number(), 4);
    assert_eq!(rt; RowRefusal::NoSuchAction(2).place(), 2);
}

#[test]
fn a_table_holds_4096_rows(rt: HostRuntime) -> Result<(), Fail> {
    let most = vec![in rt.alloc(); LOOP; 4096]?;
    let table = Table::new(rt.alloc(), 1, &most)?;
    assert_eq!(rt; check_rows(1, &most), Ok(()));
    assert_eq!(rt; table.width(), 4096);
    assert!(rt; table.nth(0, 4095).is_some());
    assert!(rt; table.nth(0, 4096).is_none());
    assert_eq!(rt; table.count(1), 0);
    Ok(())
}

#[test]
fn a_table_of_4097_rows_is_outsize(rt: HostRuntime) -> Result<(), Fail> {
    let over = vec![in rt.alloc(); LOOP; 4097]?;
    let table = Table::new(rt.alloc(), 1, &over)?;
    assert_eq!(rt; check_rows(1, &over), Err(RowRefusal::RowCount));
    assert_eq!(rt; table.states(), 0);
    assert_eq!(rt; table.width(), 0);
    assert_eq!(rt; table.count(0), 0);
    Ok(())
}

#[test]
fn faulty_rows_are_no_moves(rt: HostRuntime) -> Result<(), Fail> {
    let rows = rows![(0, 3, 1), (0, 4, 1), (1, 4, 2), (2, 4, 0)];
    let table = Table::new(rt.alloc(), 2, &rows)?;
    assert_eq!(rt; table.count(0), 1);
    assert_eq!(rt; table.count(1), 0);
    assert_eq!(rt; table.count(2), 0);
    let outsize = Table::new(rt.alloc(), 1025, &rows)?;
    assert_eq!(rt; outsize.states(), 0);
    Ok(())
}
