// Codes and sizes at their limits.
use composition::parallel::Parallel;
use systems::rows::{Row, check_rows};
use systems::system::System;
use systems::table::Table;

const LAST_CODE: Row = Row {
    from: 0,
    code: 243,
    to: 0,
};

const NO_CODE: Row = Row {
    code: 244,
    ..LAST_CODE
};

pub fn print_codes(rt: &impl Print) -> anyhow::Result<()> {
    for row in [LAST_CODE, NO_CODE] {
        match check_rows(1, &[row]) {
            Ok(()) => println!(rt; "code {}: passes", row.code)?,
            Err(refusal) => println!(rt;
                "code {}: refused {} at row {}",
                row.code,
                refusal.number(),
                refusal.place()
            )?,
        }
    }
    Ok(())
}

fn print_pair(rt: &impl Print, name: &str, left: &Table, right: &Table) -> anyhow::Result<()> {
    let both = Parallel::new(left, right);
    match both.states() {
        0 => println!(rt; "parallel of {name}: outsize")?,
        states => println!(rt;
            "parallel of {name}: {states} states, width {}",
            both.width()
        )?,
    }
    Ok(())
}

pub fn print_sizes(rt: &HostRuntime) -> anyhow::Result<()> {
    let few = Table::new(rt.alloc(), 32, &[])?;
    let many = Table::new(rt.alloc(), 33, &[])?;
    print_pair(rt, "32 and 32 states", &few, &few)?;
    print_pair(rt, "33 and 32 states", &many, &few)?;
    let narrow = Table::new(rt.alloc(), 1, &[LAST_CODE; 63])?;
    let wide = Table::new(rt.alloc(), 1, &[LAST_CODE; 64])?;
    print_pair(rt, "widths 63 and 63", &narrow, &narrow)?;
    print_pair(rt, "widths 64 and 63", &wide, &narrow)
}
