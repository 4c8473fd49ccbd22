ghost use Rattle.std.specs.Prelude.{◌≡◌, length};
ghost use Rattle.theory.specs.Layers.{shown};
ghost use Rattle.comparison.specs.Comparisons.{begin_fault};
ghost use Rattle.verdicts.specs.Decisions.{Settles, LeftBy};

use comparison::comparison::{Open, Refusal, Settled, Step};
use layers::layer::Layer;
use systems::system::System;

// Begins a comparison, and sweeps until it is settled. It is refused as begin is: no sweep of a run is.
pub fn settle<Y: Layer, S: System, T: System>(
    left: &S,
    right: &T,
    cells: &mut [u32],
) -> Result<Settled<Y>, Refusal>
    ensures answer { Settles (shown Y.Layer.rule (S.System.meaning left.now)) (shown Y.Layer.rule (T.System.meaning right.now)) (length cells.old) result cells.new }
    ensures cells { LeftBy (begin_fault (S.System.meaning left.now).n (T.System.meaning right.now).n (length cells.old)) Y.Layer.rule (S.System.meaning left.now) (T.System.meaning right.now) cells.old cells.new }
{
    let mut current = Open::<Y>::begin(left, right, cells)?;
    loop {
        match current.sweep(left, right, cells) {
            Ok(Step::Again(next)) => current = next,
            Ok(Step::Done(settled)) => return Ok(settled),
            Err((refusal, _)) => return Err(refusal),
        }
    }
}
