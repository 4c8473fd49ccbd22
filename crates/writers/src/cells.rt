ghost use Rattle.std.specs.Prelude.{◌≡◌, ◌*◌, ◌≤◌, length, take};

use comparison::pairs::count_pairs;
use layers::layer::Layer;
use std::marker::PhantomData;
use systems::system::System;

// The cells of a comparison of two systems under the layer Y: one for each pair of states, and maybe more behind them.
#[derive(Drop)]
pub(crate) struct PairCells<'a, Y: Layer, S: System, T: System> {
    pub(crate) left: &'a S,
    pub(crate) right: &'a T,
    pub(crate) cells: &'a [u32],
    pub(crate) layer: PhantomData<Y>,
    ghost enough: { (S.System.meaning left.now).n * (T.System.meaning right.now).n ≤ length cells.now },
}

impl<'a, Y: Layer, S: System, T: System> PairCells<'a, Y, S, T> {
    // One cell for each pair.
    pub(crate) fn of_pairs(&self) -> &'a [u32]
        ensures value { result.now ≡ take ((S.System.meaning self.now.left.now).n * (T.System.meaning self.now.right.now).n) self.now.cells.now }
        ensures count { length result.now ≡ (S.System.meaning self.now.left.now).n * (T.System.meaning self.now.right.now).n }
    {
        &self.cells[..count_pairs(self.left, self.right)]
    }
}

pub(crate) mod entry;
mod fill;
mod rounds;
