ghost use Rattle.std.specs.Prelude.{◌+◌, ◌*◌, length};
ghost use Rattle.theory.specs.Layers.{shown};
ghost use Rattle.certificates.specs.Listings.{different_numbers, DifferentListing};
ghost use Rattle.comparison.specs.Comparisons.{verdict_answer};
ghost use Rattle.writers.specs.Writes.{cell_of, lacks_move, different_write_fault, Written, DifferentWritten};

use super::cells::PairCells;
use super::refusal::WriteRefusal;
use super::struck::StruckPair;
use certificates::rows::DifferentRow;
use comparison::comparison::{Settled, Verdict};
use layers::layer::Layer;
use std::marker::PhantomData;
use systems::system::System;

// Writes the different sheet of states that the settled comparison finds different: the pairs of lower rounds, round by round
// and in order, and then their own pair, each with its first move that only pairs of lower rounds could answer. The answer is
// how many rows were written.
pub fn write_different<Y: Layer, S: System, T: System>(
    settled: &Settled<Y>,
    left: &S,
    right: &T,
    cells: &[u32],
    s: usize,
    t: usize,
    rows: &mut [DifferentRow],
) -> Result<usize, WriteRefusal>
    ensures answer { Written (different_write_fault (verdict_answer settled.now.progress (S.System.meaning left.now).n (T.System.meaning right.now).n cells.now s t) (lacks_move (shown Y.Layer.rule (S.System.meaning left.now)) (shown Y.Layer.rule (T.System.meaning right.now)) (cell_of cells.now) (s * (T.System.meaning right.now).n + t)) (length (different_numbers (cell_of cells.now) ((S.System.meaning left.now).n * (T.System.meaning right.now).n) (s * (T.System.meaning right.now).n + t))) (length rows.old)) (DifferentListing (shown Y.Layer.rule (S.System.meaning left.now)) (shown Y.Layer.rule (T.System.meaning right.now)) (cell_of cells.now) (s * (T.System.meaning right.now).n + t)) rows.old rows.new result }
    ensures law { DifferentWritten (shown Y.Layer.rule (S.System.meaning left.now)) (shown Y.Layer.rule (T.System.meaning right.now)) settled.now.progress.n1 settled.now.progress.n2 settled.now.progress.made cells.now s t rows.new result }
{
    match settled.verdict(left, right, cells, s, t)? {
        Verdict::Equal => Err(WriteRefusal::OtherVerdict),
        Verdict::Different(_) => {
            let compared = PairCells::<Y, S, T> {
                left,
                right,
                cells,
                layer: PhantomData,
            };
            let asked = StruckPair {
                compared,
                pair: s * right.states() + t,
            };
            asked.list(rows)
        }
    }
}
