ghost use Rattle.std.specs.Prelude.{◌≡◌};
ghost use Rattle.theory.specs.Limits.{sum_limited};
ghost use Rattle.theory.proofs.OperatorLaws.{sum_lawful};
ghost use Rattle.rules.specs.Rules.{SumRule};
ghost use Rattle.rules.specs.Derived.{FollowsWithin};
ghost use Rattle.composition.specs.Sizes.{SizeOf};

use super::placed::Place;
use super::size::Size;
use actions::action::Action;
use systems::system::System;

// A choice between two systems. State 0 has the transitions of both starts, the left one's first; the left states follow,
// then the right ones.
#[derive(Drop)]
pub struct Sum<L: System, R: System> {
    left_start: usize,
    right_start: usize,
    left: L,
    right: R,
    size: Size,
    ghost measured: { SizeOf (sum_limited left_start right_start (L.System.meaning left) (R.System.meaning right)) size },
}

impl<L: System, R: System> Sum<L, R> {
    pub fn new(left_start: usize, left: L, right_start: usize, right: R) -> Sum<L, R>
        ensures parts { (result.left_start ≡ left_start) × (result.right_start ≡ right_start) × (result.left ≡ left) × (result.right ≡ right) }
        ensures rules { FollowsWithin (sum_limited result.left_start result.right_start (L.System.meaning result.left) (R.System.meaning result.right)) (SumRule left_start right_start (L.System.meaning left) (R.System.meaning right)) }
    {
        let n1 = left.states();
        let n2 = right.states();
        let size = Size {
            states: n1 + n2 + 1,
            width: left.width() + right.width(),
        };
        Sum {
            left_start,
            right_start,
            left,
            right,
            size: size.limited(left_start < n1 && right_start < n2),
        }
    }
}

impl<L: System, R: System> System for Sum<L, R> {
    ghost meaning = { λ x. sum_limited x.left_start x.right_start (L.System.meaning x.left) (R.System.meaning x.right) };

    ghost lawful = { λ x. sum_lawful x.left_start x.right_start (L.System.meaning x.left) (R.System.meaning x.right) (L.System.lawful x.left) (R.System.lawful x.right) };

    fn states(&self) -> usize {
        self.size.states
    }

    fn width(&self) -> usize {
        self.size.width
    }

    fn count(&self, s: usize) -> usize {
        if s >= self.size.states {
            return 0;
        }
        let n1 = self.left.states();
        if s == 0 {
            self.left.count(self.left_start) + self.right.count(self.right_start)
        } else if s <= n1 {
            self.left.count(s - 1)
        } else {
            self.right.count(s - 1 - n1)
        }
    }

    fn nth(&self, s: usize, k: usize) -> Option<(Action, usize)> {
        if s >= self.size.states {
            return None;
        }
        let n1 = self.left.states();
        let on_left = Place::after(1);
        let on_right = Place::after(n1 + 1);
        if s > n1 {
            return on_right.nth(&self.right, s - 1 - n1, k);
        }
        if s > 0 {
            return on_left.nth(&self.left, s - 1, k);
        }
        let of_left = self.left.count(self.left_start);
        if k < of_left {
            on_left.nth(&self.left, self.left_start, k)
        } else {
            on_right.nth(&self.right, self.right_start, k - of_left)
        }
    }
}
