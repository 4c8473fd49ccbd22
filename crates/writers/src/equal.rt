ghost use Rattle.std.specs.Prelude.{◌≡◌, ◌*◌, length, if◌then◌else◌, Some, None, nat_le};
ghost use Rattle.theory.specs.Layers.{shown};
ghost use Rattle.certificates.specs.Listings.{is_zero, equal_listing};
ghost use Rattle.comparison.specs.Comparisons.{verdict_answer};
ghost use Rattle.writers.specs.Writes.{cell_of, equal_write_fault, Written, EqualWritten};
ghost use Rattle.writers.specs.declared.refusal.WriteRefusal.TheVariants.{FewRows};

use super::cells::PairCells;
use super::cells::entry::pair_at;
use super::refusal::WriteRefusal;
use certificates::rows::EqualRow;
use comparison::comparison::{Settled, Verdict};
use layers::layer::Layer;
use std::marker::PhantomData;
use systems::system::System;

impl<'a, Y: Layer, S: System, T: System> PairCells<'a, Y, S, T> {
    // The pairs that are kept, if there are rows enough.
    fn list_kept(&self, rows: &mut [EqualRow]) -> Result<usize, WriteRefusal>
        ensures { Written (if nat_le (length (equal_listing (T.System.meaning self.now.right.now).n (is_zero (cell_of self.now.cells.now)) ((S.System.meaning self.now.left.now).n * (T.System.meaning self.now.right.now).n))) (length rows.old) then None else Some FewRows) (λ list. list ≡ equal_listing (T.System.meaning self.now.right.now).n (is_zero (cell_of self.now.cells.now)) ((S.System.meaning self.now.left.now).n * (T.System.meaning self.now.right.now).n)) rows.old rows.new result }
    {
        if self.count_round(0) > rows.len() {
            return Err(WriteRefusal::FewRows);
        }
        let n2 = self.right.states();
        Ok(self.fill_round(0, |i| Some(pair_at(n2, i)), rows, 0))
    }
}

// Writes the equal sheet of states that the settled comparison finds equal: all its zero cells, in order. The answer is how
// many rows were written.
pub fn write_equal<Y: Layer, S: System, T: System>(
    settled: &Settled<Y>,
    left: &S,
    right: &T,
    cells: &[u32],
    s: usize,
    t: usize,
    rows: &mut [EqualRow],
) -> Result<usize, WriteRefusal>
    ensures answer { Written (equal_write_fault (verdict_answer settled.now.progress (S.System.meaning left.now).n (T.System.meaning right.now).n cells.now s t) (length (equal_listing (T.System.meaning right.now).n (is_zero (cell_of cells.now)) ((S.System.meaning left.now).n * (T.System.meaning right.now).n))) (length rows.old)) (λ list. list ≡ equal_listing (T.System.meaning right.now).n (is_zero (cell_of cells.now)) ((S.System.meaning left.now).n * (T.System.meaning right.now).n)) rows.old rows.new result }
    ensures law { EqualWritten (shown Y.Layer.rule (S.System.meaning left.now)) (shown Y.Layer.rule (T.System.meaning right.now)) settled.now.progress.n1 settled.now.progress.n2 settled.now.progress.made cells.now s t rows.new result }
{
    match settled.verdict(left, right, cells, s, t)? {
        Verdict::Equal => {
            let cells = PairCells::<Y, S, T> {
                left,
                right,
                cells,
                layer: PhantomData,
            };
            cells.list_kept(rows)
        }
        Verdict::Different(_) => Err(WriteRefusal::OtherVerdict),
    }
}
