// Compares pairs of tables and prints what was found: the verdict, the round that told the two apart, the sweeps made.
#![tactic(auto)]

mod pairs;

use anyhow::anyhow;
use comparison::comparison::Verdict;
use layers::standing::Standing;
use pairs::{Pair, Part};
use systems::rows::check_rows;
use systems::table::Table;
use verdicts::decide::{Decision, decide};

fn print_decision(rt: &impl Print, name: &str, decision: Decision) -> anyhow::Result<()> {
    match decision.verdict {
        Verdict::Equal => println!(rt; "{name}: equal, {} sweeps", decision.sweeps)?,
        Verdict::Different(round) => println!(rt;
            "{name}: different, round {round}, {} sweeps",
            decision.sweeps
        )?,
    }
    Ok(())
}

fn table_of(rt: &impl AllocGlobal, part: &Part) -> anyhow::Result<Table> {
    check_rows(part.states, part.rows).map_err(|_| anyhow!("the rows are no table"))?;
    Ok(Table::new(rt.alloc(), part.states, part.rows)?)
}

fn compare(rt: &HostRuntime, pair: &Pair, cells: &mut [u32]) -> anyhow::Result<()> {
    let left = table_of(rt, &pair.left)?;
    let right = table_of(rt, &pair.right)?;
    match decide::<Standing, Table, Table>(
        &left,
        &right,
        pair.left.start,
        pair.right.start,
        cells,
    ) {
        Ok(decision) => print_decision(rt, pair.name, decision),
        Err(refusal) => {
            println!(rt; "{}: refused {}", pair.name, refusal.number())?;
            Ok(())
        }
    }
}

fn main(rt: HostRuntime) -> anyhow::Result<()> {
    let mut cells = [0; 64];
    for pair in &pairs::PAIRS {
        compare(&rt, pair, &mut cells)?;
    }
    Ok(())
}
