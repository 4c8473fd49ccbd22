use super::listing::{action, check_moves, pair, renaming};
use composition::nil::Nil;
use composition::prefix::Prefix;
use example_tables::rows;
use relabelling::lowered::Lowered;
use relabelling::raised::Raised;
use relabelling::renamed::Renamed;
use relabelling::restriction::Restriction;
use std::test::Fail;
use systems::rows::Row;
use systems::system::System;
use systems::table::Table;

// bit 1: channel 1
const CHANNEL_1: u64 = 2;

// One state with the four actions of channel 1.
const ALL_FOUR: [Row; 4] = rows![(0, 4, 0), (0, 5, 0), (0, 6, 0), (0, 7, 0)];

#[test]
fn restriction_reads_its_words_by_class(rt: HostRuntime) -> Result<(), Fail> {
    let x = Table::new(rt.alloc(), 1, &ALL_FOUR)?;
    check_moves(
        &rt,
        &Restriction::new(pair(CHANNEL_1, 0)?, &x),
        0,
        &[(5, 0), (7, 0)],
    )?;
    check_moves(
        &rt,
        &Restriction::new(pair(0, CHANNEL_1)?, &x),
        0,
        &[(4, 0), (6, 0)],
    )
}

#[test]
fn renaming_is_of_one_class(rt: HostRuntime) -> Result<(), Fail> {
    let x = Table::new(rt.alloc(), 1, &ALL_FOUR)?;
    let low = renaming(0, 1, 2)?;
    let high = renaming(1, 1, 2)?;
    check_moves(
        &rt,
        &Renamed::new(low, &x),
        0,
        &[(8, 0), (5, 0), (10, 0), (7, 0)],
    )?;
    check_moves(
        &rt,
        &Renamed::new(high, &x),
        0,
        &[(4, 0), (9, 0), (6, 0), (11, 0)],
    )
}

#[test]
fn raising_and_lowering_read_theirs_by_polarity(rt: HostRuntime) -> Result<(), Fail> {
    let x = Table::new(rt.alloc(), 1, &ALL_FOUR)?;
    check_moves(
        &rt,
        &Raised::new(pair(CHANNEL_1, 0)?, &x),
        0,
        &[(5, 0), (5, 0), (6, 0), (7, 0)],
    )?;
    check_moves(
        &rt,
        &Raised::new(pair(0, CHANNEL_1)?, &x),
        0,
        &[(4, 0), (5, 0), (7, 0), (7, 0)],
    )?;
    check_moves(
        &rt,
        &Lowered::new(pair(CHANNEL_1, 0)?, &x),
        0,
        &[(4, 0), (4, 0), (6, 0), (7, 0)],
    )?;
    let a = Prefix::new(action(5)?, 0, Nil::new());
    check_moves(&rt, &Lowered::new(pair(CHANNEL_1, 0)?, &a), 0, &[(4, 1)])
}

#[test]
fn impatient_states_stay(rt: HostRuntime) -> Result<(), Fail> {
    let rows = rows![(0, 4, 0), (0, 5, 0), (0, 1, 0)];
    let x = Table::new(rt.alloc(), 1, &rows)?;
    let same = [(4, 0), (5, 0), (1, 0)];
    check_moves(&rt, &Raised::new(pair(CHANNEL_1, 0)?, &x), 0, &same)?;
    check_moves(&rt, &Lowered::new(pair(CHANNEL_1, 0)?, &x), 0, &same)
}
