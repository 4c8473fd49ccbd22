ghost use Rattle.std.specs.Prelude.{◌≡◌, ℕ, length, slice_index};
ghost use Rattle.theory.specs.Layers.{shown};
ghost use Rattle.comparison.specs.Comparisons.{begun_cell, Begun, RunBegins};

use super::check::check_begin;
use super::progress::Progress;
use super::{Open, Refusal};
use crate::pairs::count_pairs;
use layers::layer::Layer;
use std::marker::PhantomData;
use systems::system::System;

impl<Y: Layer> Open<Y> {
    // Zeroes the cells of all pairs. A run of the comparison begins so.
    pub fn begin<S: System, T: System>(
        left: &S,
        right: &T,
        cells: &mut [u32],
    ) -> Result<Open<Y>, Refusal>
        ensures answer { Begun (S.System.meaning left.now).n (T.System.meaning right.now).n (length cells.old) result }
        ensures cells { (i : ℕ) → slice_index cells.new i ≡ begun_cell (S.System.meaning left.now).n (T.System.meaning right.now).n cells.old i }
        ensures law { RunBegins (shown Y.Layer.rule (S.System.meaning left.now)) (shown Y.Layer.rule (T.System.meaning right.now)) result cells.new }
    {
        check_begin(left, right, cells.len())?;
        let pairs = count_pairs(left, right);
        cells[..pairs].fill(0);
        Ok(Open {
            progress: Progress {
                n1: left.states(),
                n2: right.states(),
                made: 0,
            },
            layer: PhantomData,
        })
    }
}
