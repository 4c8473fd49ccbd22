#![tactic(auto)]

use comparing::asking::compare_file;
use std::io::Read;

// One byte more than the longest file tells that a file is too long.
const MOST_READ: u64 = 11786;

// Reads a file of two designs from standard input, and prints whether they are equal.
fn main(rt: HostRuntime) -> anyhow::Result<()> {
    let mut bytes = Vec::new(rt.alloc());
    rt.stdin().take(MOST_READ).read_to_end(&mut bytes)?;
    let answer = compare_file(rt.alloc(), &bytes)?;
    println!(rt; "{answer}")?;
    Ok(())
}
