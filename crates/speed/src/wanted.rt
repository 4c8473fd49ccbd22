// What the program's words ask for: a number of states, and how many comparisons are to be timed, if any.
ghost use Rattle.std.specs.Prelude.{◌<◌, ◌≤◌};

use anyhow::{Context, anyhow};
use std::env;

// How many states each table has: two for a chain, and no more than a table may have.
#[derive(Clone, Copy)]
pub struct Size {
    pub states: u32,
    ghost enough: { 1 < states },
    ghost few: { states ≤ 1024 },
}

#[derive(Clone, Copy)]
pub struct Wanted {
    pub size: Size,
    pub times: Option<u32>,
}

// Reads `STATES` or `STATES times N`, after the program's name.
pub fn read_words(rt: &HostRuntime) -> anyhow::Result<Wanted> {
    let mut words = env::args(rt)?;
    let word = words.nth(1).context("usage: speed STATES [times N]")?;
    let states = word.parse::<u32>()?;
    let times = words.nth(1).map(|word| word.parse::<u32>()).transpose()?;
    if states < 2 || states > 1024 {
        return Err(anyhow!("there must be 2 to 1024 states"));
    }
    Ok(Wanted {
        size: Size { states },
        times,
    })
}
