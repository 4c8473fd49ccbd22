// Sheets at their limits: written out of cells that no comparison left, and of the most rows and one more.
#![tactic(auto)]

use anyhow::anyhow;
use certificates::fault::SheetFault;
use certificates::rows::{DifferentRow, EqualRow};
use example_tables::small::{CHOICE, FIRST, SINGLE, SPOILT};
use layers::standing::Standing;
use reports::printed::{Checked, Written};
use sheets::different::check_different;
use sheets::equal::check_equal;
use systems::system::System;
use systems::table::Table;
use verdicts::settling::settle;
use writers::different::write_different;

// a pair of states without transitions
const ENDED: EqualRow = EqualRow { left: 1, right: 1 };

// Rounds out of sequence, the asked pair's of 2^31: each pair that has one also has its move.
const OUT_OF_SEQUENCE: [u32; 6] = [2147483648, 5, 9, 0, 7, 0];

// Cells that no comparison left, and how many rows there are for a different sheet out of them.
struct CellCase {
    name: &'static str,
    cells: &'static [u32],
    room: usize,
}

const CELL_CASES: [CellCase; 2] = [
    CellCase {
        name: "spoilt cells and no rows to write",
        cells: &SPOILT,
        room: 0,
    },
    CellCase {
        name: "rounds out of sequence",
        cells: &OUT_OF_SEQUENCE,
        room: 6,
    },
];

// The most rows that a sheet may have.
const MOST_ROWS: usize = 1048576;

// Different sheets that are written out of cells that no comparison left.
fn write_difference<S: System, T: System>(
    rt: &impl Print,
    left: &S,
    right: &T,
    cells: &mut [u32],
    rows: &mut [DifferentRow],
) -> anyhow::Result<()> {
    let settled = settle::<Standing, S, T>(left, right, cells).map_err(|_| anyhow!(
        "not compared"
    ))?;
    for case in &CELL_CASES {
        let room = case.room.min(rows.len());
        let answer = write_different(&settled, left, right, case.cells, 0, 0, &mut rows[..room]);
        println!(rt; "{}: {}", case.name, Written(answer))?;
    }
    for row in rows.iter() {
        println!(rt; "  {} {} {} {}", row.left, row.right, row.side, row.k)?;
    }
    let written = 4.min(rows.len());
    let answer = check_different::<Standing, S, T>(left, right, &rows[..written], 0, 0);
    println!(rt; "the sheet out of sequence: {}", Checked(answer))?;
    Ok(())
}

// Different sheets of two small systems.
fn choice(rt: &HostRuntime) -> anyhow::Result<()> {
    let left = Table::new(rt.alloc(), 3, &CHOICE)?;
    let right = Table::new(rt.alloc(), 2, &SINGLE)?;
    let mut cells = [0; 6];
    let mut rows = [FIRST; 6];
    write_difference(rt, &left, &right, &mut cells, &mut rows)
}

// Checks sheets of one row over and over, with as many rows as there may be and with one more.
fn check_largest<R: Copy, F: Fn(&[R]) -> Result<(), SheetFault>>(
    rt: &HostRuntime,
    kind: &str,
    row: R,
    check: F,
) -> anyhow::Result<()>
    requires { F.IsAlwaysCallable check }
{
    for count in [MOST_ROWS, MOST_ROWS + 1] {
        let rows = vec![in rt.alloc(); row; count]?;
        println!(rt; "{kind} sheet of {count} rows")?;
        println!(rt; "  it is: {}", Checked(check(&rows)))?;
    }
    Ok(())
}

// Equal sheets for two states without transitions, and different sheets for two that are told apart at once.
fn largest(rt: &HostRuntime) -> anyhow::Result<()> {
    let left = Table::new(rt.alloc(), 3, &CHOICE)?;
    let right = Table::new(rt.alloc(), 2, &SINGLE)?;
    check_largest(rt, "equal", ENDED, |rows| {
        check_equal::<Standing, Table, Table>(&left, &left, rows, 1, 1)
    })?;
    check_largest(rt, "different", FIRST, |rows| {
        check_different::<Standing, Table, Table>(&left, &right, rows, 0, 0)
    })
}

fn main(rt: HostRuntime) -> anyhow::Result<()> {
    choice(&rt)?;
    largest(&rt)
}
