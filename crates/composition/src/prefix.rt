ghost use Rattle.std.specs.Prelude.{◌≡◌};
ghost use Rattle.theory.specs.Limits.{prefix_limited};
ghost use Rattle.theory.proofs.OperatorLaws.{prefix_lawful};
ghost use Rattle.rules.specs.Rules.{PrefixRule};
ghost use Rattle.rules.specs.Derived.{FollowsWithin};
ghost use Rattle.composition.specs.Sizes.{SizeOf};

use super::placed::Place;
use super::size::Size;
use actions::action::Action;
use systems::system::System;

// An action, and then a system from its start. State 0 does the action and goes to the start; state 1 + s is s below.
#[derive(Drop)]
pub struct Prefix<S: System> {
    action: Action,
    start: usize,
    below: S,
    size: Size,
    ghost measured: { SizeOf (prefix_limited action.code start (S.System.meaning below)) size },
}

impl<S: System> Prefix<S> {
    pub fn new(action: Action, start: usize, below: S) -> Prefix<S>
        ensures parts { (result.action ≡ action) × (result.start ≡ start) × (result.below ≡ below) }
        ensures rules { FollowsWithin (prefix_limited result.action.code result.start (S.System.meaning result.below)) (PrefixRule action.code start (S.System.meaning below)) }
    {
        let n = below.states();
        let size = Size {
            states: n + 1,
            width: below.width().max(1),
        };
        Prefix {
            action,
            start,
            below,
            size: size.limited(start < n),
        }
    }
}

impl<S: System> System for Prefix<S> {
    ghost meaning = { λ x. prefix_limited x.action.code x.start (S.System.meaning x.below) };

    ghost lawful = { λ x. prefix_lawful x.action.code x.start (S.System.meaning x.below) x.action.lawful (S.System.lawful x.below) };

    fn states(&self) -> usize {
        self.size.states
    }

    fn width(&self) -> usize {
        self.size.width
    }

    fn count(&self, s: usize) -> usize {
        if s >= self.size.states {
            0
        } else if s == 0 {
            1
        } else {
            self.below.count(s - 1)
        }
    }

    fn nth(&self, s: usize, k: usize) -> Option<(Action, usize)> {
        if s >= self.size.states {
            None
        } else if s > 0 {
            Place::after(1).nth(&self.below, s - 1, k)
        } else if k == 0 {
            Some((self.action, self.start + 1))
        } else {
            None
        }
    }
}
