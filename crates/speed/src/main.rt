// Compares large tables, and prints how many sweeps settled each comparison and how many pairs of states are equal; on demand
// also the nanoseconds that the fastest of some comparisons took. tools/speed/run sets these beside plain Rust's.
#![tactic(auto)]

mod draws;
mod inputs;
mod runs;
mod wanted;

use inputs::{INPUTS, Input};
use runs::{count_zeros, fastest};
use systems::table::Table;
use wanted::{Wanted, read_words};

fn measure(
    rt: &HostRuntime,
    wanted: Wanted,
    input: Input,
    cells: &mut [u32],
) -> anyhow::Result<()> {
    let states = wanted.size.states;
    let pair = input.pair(rt.alloc(), wanted.size)?;
    let left = Table::new(rt.alloc(), states, &pair.left)?;
    let right = Table::new(rt.alloc(), states, &pair.right)?;
    let run = fastest(rt, wanted.times.unwrap_or(1), &left, &right, cells)?;
    let equal = count_zeros(cells);
    print!(rt;
        "{}: {} sweeps, {equal} equal pairs",
        input.name(),
        run.sweeps
    )?;
    if wanted.times.is_some() {
        print!(rt; ", {} ns", run.time.as_nanos())?;
    }
    println!(rt)?;
    Ok(())
}

fn main(rt: HostRuntime) -> anyhow::Result<()> {
    let wanted = read_words(&rt)?;
    let states = wanted.size.states as usize;
    let mut cells = vec![in rt.alloc(); 0u32; states * states]?;
    for input in &INPUTS {
        measure(&rt, wanted, *input, &mut cells)?;
    }
    Ok(())
}
