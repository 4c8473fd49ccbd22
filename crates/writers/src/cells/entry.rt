ghost use Rattle.std.specs.Prelude.{◌≡◌, ◌*◌, ◌<◌};
ghost use Rattle.theory.specs.Layers.{shown};
ghost use Rattle.theory.specs.Faults.{first_fault};
ghost use Rattle.certificates.specs.Faults.{side_number};
ghost use Rattle.certificates.specs.Listings.{pair_at as pair_of, entry_at, cell_entry};
ghost use Rattle.writers.specs.Writes.{cell_of};

use super::PairCells;
use crate::lower::Lower;
use answers::held::{Flipped, Held, Outside};
use answers::search::find_unanswered;
use answers::state::ShownState;
use certificates::rows::{DifferentRow, EqualRow};
use certificates::side::Side;
use layers::layer::Layer;
use systems::system::System;

// The states of pair i, where a row has n2 pairs.
pub(crate) fn pair_at(n2: usize, i: usize) -> EqualRow
    requires { 0 < n2 }
    ensures { result ≡ pair_of n2 i }
{
    EqualRow {
        left: i / n2,
        right: i % n2,
    }
}

// The first transition of my state that only the pairs could answer, as the row of `pair`.
fn side_entry<Y: Layer, S: System, T: System, P: Held>(
    mine: ShownState<Y, S>,
    other: ShownState<Y, T>,
    pairs: &P,
    pair: EqualRow,
    side: Side,
) -> Option<DifferentRow>
    ensures { result ≡ first_fault (entry_at (P.Held.holds pairs.now) ((shown Y.Layer.rule (T.System.meaning other.entry.system.now)).moves other.entry.s) pair.left pair.right (side_number side)) 0 ((shown Y.Layer.rule (S.System.meaning mine.entry.system.now)).moves mine.entry.s) }
{
    let k = find_unanswered(mine, other, &Outside::of(pairs))?;
    Some(DifferentRow {
        left: pair.left,
        right: pair.right,
        side: side.number(),
        k,
    })
}

impl<'a, Y: Layer, S: System, T: System> PairCells<'a, Y, S, T> {
    // The row of pair i: its first transition that only pairs of lower rounds could answer.
    pub(crate) fn entry(&self, i: usize) -> Option<DifferentRow>
        requires { i < (S.System.meaning self.now.left.now).n * (T.System.meaning self.now.right.now).n }
        ensures { result ≡ cell_entry (shown Y.Layer.rule (S.System.meaning self.now.left.now)) (shown Y.Layer.rule (T.System.meaning self.now.right.now)) (cell_of self.now.cells.now) i }
    {
        let n2 = self.right.states();
        let pair = pair_at(n2, i);
        let lower = Lower {
            cells: self.cells,
            n2,
            below: self.cells[i],
        };
        let s = ShownState::<Y, S>::of(self.left, pair.left);
        let t = ShownState::<Y, T>::of(self.right, pair.right);
        let row = side_entry(s, t, &lower, pair, Side::Left);
        // Not by `or_else`: the proof would know nothing of what its closure answers.
        if row.is_some() {
            return row;
        }
        side_entry(t, s, &Flipped::of(&lower), pair, Side::Right)
    }
}
