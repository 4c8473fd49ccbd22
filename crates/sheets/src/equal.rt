ghost use Rattle.std.specs.Prelude.{◌≡◌, ℕ, ◌&&◌, ◌||◌, ◌↔◌, Ok, Err};
ghost use Rattle.theory.specs.Layers.{shown};
ghost use Rattle.theory.specs.Faults.{first_fault, passed};
ghost use Rattle.certificates.specs.declared.fault.SheetFault.{SheetFault as Fault};
ghost use Rattle.certificates.specs.Faults.{side_number};
ghost use Rattle.certificates.specs.EqualSheets.{listed, move_fault, equal_row_fault, equal_fault, AcceptedEqual, RefusedEqual, EqualDecided};
ghost use Rattle.sheets.specs.Bitmaps.{within, pair_bit};

use super::compared::Compared;
use super::pair_set::PairSet;
use super::questions::{check_asked, check_count};
use answers::held::{Flipped, Held};
use answers::search::find_unanswered;
use answers::state::ShownState;
use certificates::fault::SheetFault;
use certificates::rows::EqualRow;
use certificates::side::Side;
use layers::layer::Layer;
use std::marker::PhantomData;
use systems::system::System;

// Adds the pairs of the rows, as far as their states exist. The set is lent, since one that is handed out is copied.
fn gather(rows: &[EqualRow], pairs: &mut PairSet)
    ensures sizes { (pairs.new.n1 ≡ pairs.old.n1) × (pairs.new.n2 ≡ pairs.old.n2) }
    ensures pairs { (a b : ℕ) → pair_bit pairs.old.n1 pairs.old.n2 pairs.new.words a b ≡ (pair_bit pairs.old.n1 pairs.old.n2 pairs.old.words a b || (within pairs.old.n1 pairs.old.n2 a b && listed rows.now a b)) }
{
    for row in rows {
        pairs.insert(row.left, row.right);
    }
}

fn is_listed(rows: &[EqualRow], s: usize, t: usize) -> bool
    ensures { result ≡ listed rows.now s t }
{
    rows.contains(&EqualRow { left: s, right: t })
}

// Each transition of my state is answered by the other state within the pairs.
#[tactic(auto, using(crate::proofs::Rows::fault_numbered))]
fn check_answers<Y: Layer, S: System, T: System, P: Held>(
    mine: ShownState<Y, S>,
    other: ShownState<Y, T>,
    pairs: &P,
    row: usize,
    side: Side,
) -> Result<(), SheetFault>
    ensures { result ≡ passed (first_fault (move_fault (P.Held.holds pairs.now) ((shown Y.Layer.rule (T.System.meaning other.entry.system.now)).moves other.entry.s) row (side_number side)) 0 ((shown Y.Layer.rule (S.System.meaning mine.entry.system.now)).moves mine.entry.s)) }
{
    let side = side.number();
    match find_unanswered(mine, other, pairs) {
        Some(k) => Err(SheetFault::Unanswered { row, side, k }),
        None => Ok(()),
    }
}

impl<Y: Layer, S: System, T: System> Compared<'_, Y, S, T> {
    // The states of a row exist, and answer each other within the pairs.
    fn check_equal_row<P: Held>(
        &self,
        pairs: &P,
        row: usize,
        at: EqualRow,
    ) -> Result<(), SheetFault>
        ensures { result ≡ passed (equal_row_fault (shown Y.Layer.rule (S.System.meaning self.now.left.now)) (shown Y.Layer.rule (T.System.meaning self.now.right.now)) (P.Held.holds pairs.now) row at) }
    {
        self.check_states(row, at.left, at.right)?;
        let s = ShownState::<Y, S>::of(self.left, at.left);
        let t = ShownState::<Y, T>::of(self.right, at.right);
        check_answers(s, t, pairs, row, Side::Left)?;
        let flipped = Flipped::of(pairs);
        check_answers(t, s, &flipped, row, Side::Right)
    }

    fn check_equal_rows<P: Held>(&self, pairs: &P, rows: &[EqualRow]) -> Result<(), SheetFault>
        ensures { result ≡ passed (first_fault (equal_row_fault (shown Y.Layer.rule (S.System.meaning self.now.left.now)) (shown Y.Layer.rule (T.System.meaning self.now.right.now)) (P.Held.holds pairs.now)) 0 rows.now) }
    {
        for (i, row) in rows.iter().enumerate() {
            self.check_equal_row(pairs, i, *row)?;
        }
        Ok(())
    }

    // The questions of an equal sheet, in order.
    fn check_equal_sheet(&self, rows: &[EqualRow], s: usize, t: usize) -> Result<(), SheetFault>
        ensures { result ≡ passed (equal_fault (shown Y.Layer.rule (S.System.meaning self.now.left.now)) (shown Y.Layer.rule (T.System.meaning self.now.right.now)) rows.now s t) }
    {
        check_count(rows.len())?;
        let mut pairs = PairSet::new(self.left, self.right);
        gather(rows, &mut pairs);
        self.check_equal_rows(&pairs, rows)?;
        check_asked(is_listed(rows, s, t))
    }
}

// Whether the rows are an equal sheet for the states s and t under the layer Y: they are a bisimulation of what counts, and
// the pair is among them. The refusal is that of the first question that fails.
// Some rows pass exactly if the states are equal.
pub fn check_equal<Y: Layer, S: System, T: System>(
    left: &S,
    right: &T,
    rows: &[EqualRow],
    s: usize,
    t: usize,
) -> Result<(), SheetFault>
    ensures accepted { (result ≡ Ok tt) ↔ AcceptedEqual (shown Y.Layer.rule (S.System.meaning left.now)) (shown Y.Layer.rule (T.System.meaning right.now)) rows.now s t }
    ensures refused { (f : Fault) → (result ≡ Err f) ↔ RefusedEqual (shown Y.Layer.rule (S.System.meaning left.now)) (shown Y.Layer.rule (T.System.meaning right.now)) rows.now s t f }
    ensures decides { EqualDecided (shown Y.Layer.rule (S.System.meaning left.now)) (shown Y.Layer.rule (T.System.meaning right.now)) s t }
{
    let compared = Compared::<Y, S, T> {
        left,
        right,
        layer: PhantomData,
    };
    compared.check_equal_sheet(rows, s, t)
}
