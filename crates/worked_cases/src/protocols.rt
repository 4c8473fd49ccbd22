// The alternating bit protocol and its service: a sheet of evidence, a misprinted one, and the comparison.
use anyhow::anyhow;
use example_tables::alternating_bit as parts;
use example_tables::protocol::{Protocol, protocol, service};
use layers::standing::Standing;
use sheets::equal::check_equal;
use systems::table::Table;
use verdicts::decide::decide;

const PAIRS: usize = 1080;

pub fn print_checks(rt: &HostRuntime) -> anyhow::Result<()> {
    let system = protocol(rt.alloc())?;
    let goal = service(rt.alloc())?;
    for (name, rows) in [
        ("alternating bit", &parts::RELATION),
        ("alternating bit, misprinted", &parts::MISPRINT),
    ] {
        match check_equal::<Standing, Protocol, Table>(&system, &goal, rows, 0, 0) {
            Ok(()) => println!(rt; "{name}: accepted")?,
            Err(fault) => {
                let report = fault.report();
                println!(rt;
                    "{name}: refused {} at row {}, side {}, move {}",
                    report.number, report.place, report.side, report.k
                )?
            }
        }
    }
    Ok(())
}

pub fn print_comparison(rt: &HostRuntime) -> anyhow::Result<()> {
    let system = protocol(rt.alloc())?;
    let goal = service(rt.alloc())?;
    let mut cells = [0; PAIRS];
    let decided = decide::<Standing, Protocol, Table>(&system, &goal, 0, 0, &mut cells);
    let decision = decided.map_err(|_| anyhow!("not compared"))?;
    let equal = cells.iter().filter(|&&cell| cell == 0).count();
    println!(rt; "compared: {} sweeps, {equal} equal pairs", decision.sweeps)?;
    Ok(())
}
