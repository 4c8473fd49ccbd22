// Comparisons from begin to settled, and how long they take.
ghost use Rattle.std.specs.Prelude.{◌≡◌, count_by, nat_eq};

use anyhow::anyhow;
use layers::standing::Standing;
use std::rt::Clock;
use std::time::{Duration, Instant};
use systems::table::Table;
use verdicts::decide::decide;

// A comparison that was made: how many sweeps settled it, and how long it took.
#[derive(Clone, Copy)]
pub struct Run {
    pub sweeps: u32,
    pub time: Duration,
}

// Of the call's time all but the read of one cell, for the verdict, is from begin to settled.
fn timed(
    clock: &impl Clock,
    left: &Table,
    right: &Table,
    cells: &mut [u32],
) -> anyhow::Result<Run> {
    let start = Instant::now(clock)?;
    let decided = decide::<Standing, Table, Table>(left, right, 0, 0, cells);
    let time = start.elapsed(clock)?;
    let decision = decided.map_err(|_| anyhow!("the comparison is refused"))?;
    Ok(Run {
        sweeps: decision.sweeps,
        time,
    })
}

// The fastest of so many runs, of one at least.
pub fn fastest(
    clock: &impl Clock,
    times: u32,
    left: &Table,
    right: &Table,
    cells: &mut [u32],
) -> anyhow::Result<Run> {
    let mut best = timed(clock, left, right, cells)?;
    for _ in 1..times {
        let next = timed(clock, left, right, cells)?;
        if next.time < best.time {
            best = next;
        }
    }
    Ok(best)
}

pub fn count_zeros(cells: &[u32]) -> usize
    ensures { result ≡ count_by (λ cell. nat_eq cell 0) cells.now }
{
    cells.iter().filter(|&&cell| cell == 0).count()
}
