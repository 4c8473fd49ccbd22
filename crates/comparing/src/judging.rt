ghost use Rattle.std.specs.Prelude.{◌≡◌, ◌*◌, ◌<◌, length, IfOk};
ghost use Rattle.designs.specs.Nodes.{written};
ghost use Rattle.designs.specs.Checks.{Passed};
ghost use Rattle.design_moves.specs.WrittenDesigns.{meant};
ghost use Rattle.comparing.specs.Comparisons.{Settles};

use super::answer::{Answer, FileFault};
use comparison::comparison::Verdict;
use design_moves::written::WrittenDesign;
use files::refusal::DesignPair;
use layers::standing::Standing;
use std::alloc::{AllocError, Global};
use systems::system::System;
use verdicts::decide::{Decision, decide};

// So many cells are promised: designs with more pairs of states are refused for too few cells.
const CELLS: usize = 16384;

// Compares the starts of two designs.
fn judge(left: &WrittenDesign, right: &WrittenDesign, cells: &mut [u32]) -> Answer
    requires first { (meant left.now).start < (meant left.now).sys.n }
    requires second { (meant right.now).start < (meant right.now).sys.n }
    requires size { length cells.old ≡ 16384 }
    ensures { Settles (meant left.now) (meant right.now) result }
{
    let Ok(decision) = decide::<Standing, WrittenDesign, WrittenDesign>(
        left,
        right,
        left.start(),
        right.start(),
        cells,
    ) else {
        // Both designs have their starts, so only cells can be wanting.
        return Answer::Refused(FileFault::FewCells);
    };
    match decision.verdict {
        Verdict::Equal => {
            let pairs = &cells[..left.states() * right.states()];
            let zeros = pairs.iter().filter(|c| **c == 0).count();
            Answer::Equal(decision.sweeps, zeros)
        }
        Verdict::Different(round) => Answer::Different(decision.sweeps, round),
    }
}

// Compares two designs that passed the check.
pub(crate) fn compare_nodes(heap: Global, pair: &DesignPair) -> Result<Answer, AllocError>
    requires first { Passed pair.now.first.items }
    requires second { Passed pair.now.second.items }
    ensures { IfOk result (λ a. Settles (written pair.now.first.items) (written pair.now.second.items) a) }
{
    let left = WrittenDesign::of(heap, pair.first.as_slice())?;
    let right = WrittenDesign::of(heap, pair.second.as_slice())?;
    let mut cells = [0; CELLS];
    Ok(judge(&left, &right, &mut cells))
}
