// Runs worked examples and prints what was found: a choice made early, tables at their limits, and the alternating bit protocol.
#![tactic(auto)]

mod limits;
mod protocols;

use worked_examples::worked_examples_hold;

fn run(rt: &HostRuntime) -> anyhow::Result<()> {
    println!(rt; "{} examples are proved", worked_examples_hold())?;
    limits::print_codes(rt)?;
    limits::print_sizes(rt)?;
    protocols::print_checks(rt)?;
    protocols::print_comparison(rt)
}

fn main(rt: HostRuntime) -> anyhow::Result<()> {
    run(&rt)
}
