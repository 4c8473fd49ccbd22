ghost use Rattle.std.specs.Prelude.{◌≡◌, None};
ghost use Rattle.theory.specs.Faults.{passed};
ghost use Rattle.comparison.specs.Comparisons.{cells_fault, begin_fault, later_fault, sweep_fault, verdict_fault};

use super::Refusal;
use super::progress::Progress;
use crate::pairs::count_pairs;
use systems::system::System;

// Are there cells for all pairs?
fn check_cells<S: System, T: System>(left: &S, right: &T, len: usize) -> Result<(), Refusal>
    ensures { result ≡ passed (cells_fault (S.System.meaning left.now).n (T.System.meaning right.now).n len) }
{
    if len < count_pairs(left, right) {
        return Err(Refusal::FewCells);
    }
    Ok(())
}

// What begin asks: is neither system outsize, are there cells for all pairs?
pub fn check_begin<S: System, T: System>(left: &S, right: &T, len: usize) -> Result<(), Refusal>
    ensures { result ≡ passed (begin_fault (S.System.meaning left.now).n (T.System.meaning right.now).n len) }
{
    if left.states() == 0 || right.states() == 0 {
        return Err(Refusal::Outsize);
    }
    check_cells(left, right, len)
}

impl Progress {
    // Are these numbers of states those at begin, and are there cells for all pairs?
    fn check_later<S: System, T: System>(
        self,
        left: &S,
        right: &T,
        len: usize,
    ) -> Result<(), Refusal>
        ensures { result ≡ passed (later_fault (self.n1, self.n2) (S.System.meaning left.now).n (T.System.meaning right.now).n len None) }
    {
        if self.n1 != left.states() || self.n2 != right.states() {
            return Err(Refusal::OtherSizes);
        }
        check_cells(left, right, len)
    }

    pub(crate) fn check_sweep<S: System, T: System>(
        self,
        left: &S,
        right: &T,
        len: usize,
    ) -> Result<(), Refusal>
        ensures { result ≡ passed (sweep_fault self (S.System.meaning left.now).n (T.System.meaning right.now).n len) }
    {
        self.check_later(left, right, len)?;
        if self.made as usize > count_pairs(left, right) {
            return Err(Refusal::TooManySweeps);
        }
        Ok(())
    }

    pub(crate) fn check_verdict<S: System, T: System>(
        self,
        left: &S,
        right: &T,
        len: usize,
        s: usize,
        t: usize,
    ) -> Result<(), Refusal>
        ensures { result ≡ passed (verdict_fault self (S.System.meaning left.now).n (T.System.meaning right.now).n len s t) }
    {
        self.check_later(left, right, len)?;
        if s >= left.states() || t >= right.states() {
            return Err(Refusal::NoSuchState);
        }
        Ok(())
    }
}
