ghost use Rattle.std.specs.Prelude.{◌≡◌, ◌<◌, ◌↔◌, length, Ok, Err};
ghost use Rattle.theory.specs.Layers.{shown};
ghost use Rattle.theory.specs.Faults.{first_fault, passed};
ghost use Rattle.certificates.specs.declared.fault.SheetFault.{SheetFault as Fault};
ghost use Rattle.certificates.specs.Faults.{side_number};
ghost use Rattle.certificates.specs.DifferentSheets.{earlier, named_fault, different_row_fault, last_is, different_fault, AcceptedDifferent, RefusedDifferent, DifferentDecided};

use super::compared::Compared;
use super::pair_set::PairSet;
use super::questions::{check_asked, check_count};
use answers::held::{Flipped, Held, Outside};
use answers::search::has_answer;
use answers::state::ShownState;
use certificates::fault::SheetFault;
use certificates::rows::DifferentRow;
use certificates::side::Side;
use layers::layer::Layer;
use std::marker::PhantomData;
use systems::system::System;

// My state has a k-th transition, and all its answers by the other state lead into the pairs.
fn check_named<Y: Layer, S: System, T: System, P: Held>(
    mine: ShownState<Y, S>,
    other: ShownState<Y, T>,
    pairs: &P,
    row: usize,
    side: Side,
    k: usize,
) -> Result<(), SheetFault>
    ensures { result ≡ passed (named_fault (P.Held.holds pairs.now) ((shown Y.Layer.rule (S.System.meaning mine.entry.system.now)).moves mine.entry.s) ((shown Y.Layer.rule (T.System.meaning other.entry.system.now)).moves other.entry.s) row (side_number side) k) }
{
    let named = mine.nth(k).ok_or(SheetFault::NoSuchMove { row })?;
    if has_answer(named, other, &Outside::of(pairs)) {
        let side = side.number();
        return Err(SheetFault::Unanswered { row, side, k });
    }
    Ok(())
}

fn is_last(rows: &[DifferentRow], s: usize, t: usize) -> bool
    requires { 0 < length rows.now }
    ensures { result ≡ last_is rows.now s t }
{
    rows.last()
        .is_some_and(|last| last.left == s && last.right == t)
}

impl<Y: Layer, S: System, T: System> Compared<'_, Y, S, T> {
    // The states of a row and the transition that it names exist, and all answers lead into the pairs.
    fn check_different_row<P: Held>(
        &self,
        pairs: &P,
        row: usize,
        at: DifferentRow,
    ) -> Result<(), SheetFault>
        ensures { result ≡ passed (different_row_fault (shown Y.Layer.rule (S.System.meaning self.now.left.now)) (shown Y.Layer.rule (T.System.meaning self.now.right.now)) (P.Held.holds pairs.now) row at) }
    {
        self.check_states(row, at.left, at.right)?;
        let s = ShownState::<Y, S>::of(self.left, at.left);
        let t = ShownState::<Y, T>::of(self.right, at.right);
        let side = Side::from_number(at.side).ok_or(SheetFault::NoSuchMove { row })?;
        match side {
            Side::Left => check_named(s, t, pairs, row, side, at.k),
            Side::Right => check_named(t, s, &Flipped::of(pairs), row, side, at.k),
        }
    }

    // The pair of a row is put into the set only after the row is asked, and not before all of them as for an equal sheet: so
    // the two loops are two.
    fn check_different_rows(&self, rows: &[DifferentRow]) -> Result<(), SheetFault>
        ensures { result ≡ passed (first_fault (λ i at. different_row_fault (shown Y.Layer.rule (S.System.meaning self.now.left.now)) (shown Y.Layer.rule (T.System.meaning self.now.right.now)) (earlier rows.now i) i at) 0 rows.now) }
    {
        let mut pairs = PairSet::new(self.left, self.right);
        for (i, row) in rows.iter().enumerate() {
            self.check_different_row(&pairs, i, *row)?;
            pairs.insert(row.left, row.right);
        }
        Ok(())
    }

    // The questions of a different sheet, in order.
    fn check_different_sheet(
        &self,
        rows: &[DifferentRow],
        s: usize,
        t: usize,
    ) -> Result<(), SheetFault>
        ensures { result ≡ passed (different_fault (shown Y.Layer.rule (S.System.meaning self.now.left.now)) (shown Y.Layer.rule (T.System.meaning self.now.right.now)) rows.now s t) }
    {
        check_count(rows.len())?;
        self.check_different_rows(rows)?;
        check_asked(is_last(rows, s, t))
    }
}

// Whether the rows are a different sheet for the states s and t under the layer Y. The refusal is that of the first question
// that fails.
// Some rows pass exactly if the states are different.
pub fn check_different<Y: Layer, S: System, T: System>(
    left: &S,
    right: &T,
    rows: &[DifferentRow],
    s: usize,
    t: usize,
) -> Result<(), SheetFault>
    ensures accepted { (result ≡ Ok tt) ↔ AcceptedDifferent (shown Y.Layer.rule (S.System.meaning left.now)) (shown Y.Layer.rule (T.System.meaning right.now)) rows.now s t }
    ensures refused { (f : Fault) → (result ≡ Err f) ↔ RefusedDifferent (shown Y.Layer.rule (S.System.meaning left.now)) (shown Y.Layer.rule (T.System.meaning right.now)) rows.now s t f }
    ensures decides { DifferentDecided (shown Y.Layer.rule (S.System.meaning left.now)) (shown Y.Layer.rule (T.System.meaning right.now)) s t }
{
    let compared = Compared::<Y, S, T> {
        left,
        right,
        layer: PhantomData,
    };
    compared.check_different_sheet(rows, s, t)
}
