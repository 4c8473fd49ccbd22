// Puts sheets of evidence before the checks, and has sheets written: the alternating bit protocol and its service, and two
// small systems that are told apart at once.
#![tactic(auto)]

mod cases;

use anyhow::anyhow;
use cases::{DIFFERENT_SHEETS, EQUAL_SHEETS};
use certificates::rows::{DifferentRow, EqualRow};
use example_tables::protocol;
use example_tables::small::{CHOICE, FIRST, SINGLE, SPOILT};
use layers::standing::Standing;
use reports::printed::{Checked, Written};
use sheets::different::check_different;
use sheets::equal::check_equal;
use systems::system::System;
use systems::table::Table;
use verdicts::settling::settle;
use writers::different::write_different;
use writers::equal::write_equal;

const EMPTY: EqualRow = EqualRow { left: 0, right: 0 };

fn check_protocol<S: System, T: System>(
    rt: &impl Print,
    left: &S,
    right: &T,
) -> anyhow::Result<()> {
    for (name, rows, s, t) in &EQUAL_SHEETS {
        let answer = check_equal::<Standing, S, T>(left, right, rows, *s, *t);
        println!(rt; "{name}: {}", Checked(answer))?;
    }
    Ok(())
}

// An equal sheet that is written, and then checked; there are as many rows as it has, and one too few.
fn write_bisimulation<S: System, T: System>(
    rt: &impl Print,
    left: &S,
    right: &T,
    cells: &mut [u32],
    rows: &mut [EqualRow],
    few: &mut [EqualRow],
) -> anyhow::Result<()> {
    let settled = settle::<Standing, S, T>(left, right, cells).map_err(|_| anyhow!(
        "not compared"
    ))?;
    let answer = write_equal(&settled, left, right, cells, 0, 0, few);
    println!(rt; "too few rows: {}", Written(answer))?;
    let answer = write_equal(&settled, left, right, cells, 0, 1, rows);
    println!(rt; "not equal: {}", Written(answer))?;
    let answer = write_equal(&settled, left, right, cells, 0, 0, rows);
    println!(rt; "written: {}", Written(answer))?;
    let answer = check_equal::<Standing, S, T>(left, right, rows, 0, 0);
    println!(rt; "written sheet: {}", Checked(answer))?;
    Ok(())
}

// Equal sheets of the protocol and its service.
fn protocol_sheets(rt: &HostRuntime) -> anyhow::Result<()> {
    let system = protocol::protocol(rt.alloc())?;
    let service = protocol::service(rt.alloc())?;
    check_protocol(rt, &system, &service)?;
    let mut cells = [0; 1080];
    let mut rows = [EMPTY; 12];
    let mut few = [EMPTY; 11];
    write_bisimulation(rt, &system, &service, &mut cells, &mut rows, &mut few)
}

fn check_choice<S: System, T: System>(rt: &impl Print, left: &S, right: &T) -> anyhow::Result<()> {
    for (name, row, s, t) in &DIFFERENT_SHEETS {
        let answer = check_different::<Standing, S, T>(left, right, &[*row], *s, *t);
        println!(rt; "{name}: {}", Checked(answer))?;
    }
    Ok(())
}

// A different sheet that is written, also out of cells that are too few, and of ones that no comparison left.
fn write_difference<S: System, T: System>(
    rt: &impl Print,
    left: &S,
    right: &T,
    cells: &mut [u32],
    rows: &mut [DifferentRow],
) -> anyhow::Result<()> {
    let settled = settle::<Standing, S, T>(left, right, cells).map_err(|_| anyhow!(
        "not compared"
    ))?;
    let answer = write_different(&settled, left, right, cells, 0, 0, rows);
    println!(rt; "different sheet: {}", Written(answer))?;
    let answer = write_different(&settled, left, right, cells, 0, 0, &mut []);
    println!(rt; "no rows to write: {}", Written(answer))?;
    let answer = write_different(&settled, left, right, &[1; 5], 0, 0, rows);
    println!(rt; "cells cut short: {}", Written(answer))?;
    let answer = write_different(&settled, left, right, &SPOILT, 0, 0, rows);
    println!(rt; "spoilt cells: {}", Written(answer))?;
    Ok(())
}

// Different sheets of two small systems.
fn choice_sheets(rt: &HostRuntime) -> anyhow::Result<()> {
    let left = Table::new(rt.alloc(), 3, &CHOICE)?;
    let right = Table::new(rt.alloc(), 2, &SINGLE)?;
    check_choice(rt, &left, &right)?;
    let mut cells = [0; 6];
    let mut rows = [FIRST; 6];
    write_difference(rt, &left, &right, &mut cells, &mut rows)
}

fn main(rt: HostRuntime) -> anyhow::Result<()> {
    protocol_sheets(&rt)?;
    choice_sheets(&rt)
}
