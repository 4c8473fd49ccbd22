ghost use Rattle.std.specs.Prelude.{◌≡◌, ◌*◌, ◌<◌, ◌≤◌, false, ◌&&◌, length, if◌then◌else◌, Some, None, nat_le};
ghost use Rattle.theory.specs.Layers.{shown};
ghost use Rattle.certificates.specs.Listings.{different_numbers, cell_entry, DifferentListing};
ghost use Rattle.writers.specs.declared.refusal.WriteRefusal.TheVariants.{NoMove, FewRows};
ghost use Rattle.writers.specs.Fills.{Filled};
ghost use Rattle.writers.specs.Writes.{cell_of, is_none, lacks_move, named, Written};

use super::cells::PairCells;
use super::lower::is_lower;
use super::refusal::WriteRefusal;
use certificates::rows::DifferentRow;
use layers::layer::Layer;
use systems::system::System;

// A pair that a round struck, and that a different sheet is asked for.
#[derive(Drop)]
pub(crate) struct StruckPair<'a, Y: Layer, S: System, T: System> {
    pub(crate) compared: PairCells<'a, Y, S, T>,
    pub(crate) pair: usize,
    ghost inside: { pair < (S.System.meaning compared.left.now).n * (T.System.meaning compared.right.now).n },
    ghost struck: { 0 < cell_of compared.cells.now pair },
}

impl<'a, Y: Layer, S: System, T: System> StruckPair<'a, Y, S, T> {
    // The pair i belongs to the sheet, and has no row.
    fn is_missing(&self, i: usize) -> bool
        requires { i < (S.System.meaning self.now.compared.left.now).n * (T.System.meaning self.now.compared.right.now).n }
        ensures { result ≡ (named (cell_of self.now.compared.cells.now) self.now.pair i && is_none (cell_entry (shown Y.Layer.rule (S.System.meaning self.now.compared.left.now)) (shown Y.Layer.rule (T.System.meaning self.now.compared.right.now)) (cell_of self.now.compared.cells.now) i)) }
    {
        (is_lower(self.compared.cells[i], self.compared.cells[self.pair]) || i == self.pair)
            && self.compared.entry(i).is_none()
    }

    // Some pair of the sheet has no row.
    fn lacks_row(&self) -> bool
        ensures { result ≡ lacks_move (shown Y.Layer.rule (S.System.meaning self.now.compared.left.now)) (shown Y.Layer.rule (T.System.meaning self.now.compared.right.now)) (cell_of self.now.compared.cells.now) self.now.pair }
    {
        (0..self.compared.of_pairs().len()).any(|i| self.is_missing(i))
    }

    // The rows of lower rounds, and then that of the pair itself, where each has one and there is room for all.
    fn fill(&self, rows: &mut [DifferentRow]) -> usize
        requires moves { lacks_move (shown Y.Layer.rule (S.System.meaning self.now.compared.left.now)) (shown Y.Layer.rule (T.System.meaning self.now.compared.right.now)) (cell_of self.now.compared.cells.now) self.now.pair ≡ false }
        requires room { length (different_numbers (cell_of self.now.compared.cells.now) ((S.System.meaning self.now.compared.left.now).n * (T.System.meaning self.now.compared.right.now).n) self.now.pair) ≤ length rows.old }
        ensures { Filled (cell_entry (shown Y.Layer.rule (S.System.meaning self.now.compared.left.now)) (shown Y.Layer.rule (T.System.meaning self.now.compared.right.now)) (cell_of self.now.compared.cells.now)) (different_numbers (cell_of self.now.compared.cells.now) ((S.System.meaning self.now.compared.left.now).n * (T.System.meaning self.now.compared.right.now).n) self.now.pair) rows.old rows.new result }
    {
        let count = self
            .compared
            .fill_rounds(self.compared.cells[self.pair], rows);
        let Some(row) = self.compared.entry(self.pair) else {
            return count;
        };
        rows[count] = row;
        count + 1
    }

    // The sheet, unless a row has no move or there are too few rows.
    pub(crate) fn list(&self, rows: &mut [DifferentRow]) -> Result<usize, WriteRefusal>
        ensures { Written (if lacks_move (shown Y.Layer.rule (S.System.meaning self.now.compared.left.now)) (shown Y.Layer.rule (T.System.meaning self.now.compared.right.now)) (cell_of self.now.compared.cells.now) self.now.pair then Some NoMove else (if nat_le (length (different_numbers (cell_of self.now.compared.cells.now) ((S.System.meaning self.now.compared.left.now).n * (T.System.meaning self.now.compared.right.now).n) self.now.pair)) (length rows.old) then None else Some FewRows)) (DifferentListing (shown Y.Layer.rule (S.System.meaning self.now.compared.left.now)) (shown Y.Layer.rule (T.System.meaning self.now.compared.right.now)) (cell_of self.now.compared.cells.now) self.now.pair) rows.old rows.new result }
    {
        if self.lacks_row() {
            return Err(WriteRefusal::NoMove);
        }
        if self.compared.count_lower(self.compared.cells[self.pair]) >= rows.len() {
            return Err(WriteRefusal::FewRows);
        }
        Ok(self.fill(rows))
    }
}
