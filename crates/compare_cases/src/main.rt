// Compares the designs in each file named, and prints a line for each: worked examples, every refusal, and files that are hard
// to work out. tools/cases.py wrote the files and the lines that are expected.
#![tactic(auto)]

use comparing::asking::compare_file;
use std::{env, fs};

fn main(rt: HostRuntime) -> anyhow::Result<()> {
    for name in env::args(&rt)?.skip(1) {
        let bytes = fs::read(&rt, &name)?;
        let answer = compare_file(rt.alloc(), &bytes)?;
        println!(rt; "{name} {answer}")?;
    }
    Ok(())
}
