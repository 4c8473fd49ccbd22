ghost use Rattle.std.specs.Prelude.{◌≡◌, length};
ghost use Rattle.theory.specs.Faults.{passed};
ghost use Rattle.verdicts.specs.Decisions.{decide_fault, Decided, DecidedCells};

use super::settling::settle;
use comparison::comparison::{Refusal, Settled, Verdict, check_begin};
use layers::layer::Layer;
use systems::system::System;

// A verdict, and how many sweeps led to it.
#[derive(Clone, Copy, PartialEq, Eq, Debug)]
pub struct Decision {
    pub verdict: Verdict,
    pub sweeps: u32,
}

impl Decision {
    fn of<Y: Layer>(settled: &Settled<Y>, verdict: Verdict) -> Decision
        ensures { (result.verdict ≡ verdict) × (result.sweeps ≡ settled.now.progress.made) }
    {
        Decision {
            verdict,
            sweeps: settled.sweeps(),
        }
    }
}

// Is neither system outsize, are there cells for all pairs, do both states exist?
fn check<S: System, T: System>(
    left: &S,
    right: &T,
    len: usize,
    s: usize,
    t: usize,
) -> Result<(), Refusal>
    ensures { result ≡ passed (decide_fault (S.System.meaning left.now).n (T.System.meaning right.now).n len s t) }
{
    check_begin(left, right, len)?;
    if s >= left.states() || t >= right.states() {
        return Err(Refusal::NoSuchState);
    }
    Ok(())
}

// Compares the systems under the layer Y, and says whether the states s of the left one and t of the right one are equal.
pub fn decide<Y: Layer, S: System, T: System>(
    left: &S,
    right: &T,
    s: usize,
    t: usize,
    cells: &mut [u32],
) -> Result<Decision, Refusal>
    ensures answer { Decided Y.Layer.rule (S.System.meaning left.now) (T.System.meaning right.now) (length cells.old) s t result }
    ensures cells { DecidedCells Y.Layer.rule (S.System.meaning left.now) (T.System.meaning right.now) cells.old s t cells.new }
{
    check(left, right, cells.len(), s, t)?;
    let settled = settle::<Y, S, T>(left, right, cells)?;
    let verdict = settled.verdict(left, right, cells, s, t)?;
    Ok(Decision::of(&settled, verdict))
}
