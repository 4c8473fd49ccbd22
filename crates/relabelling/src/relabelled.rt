ghost use Rattle.std.specs.Prelude.{◌≡◌, ℕ, length};
ghost use Rattle.theory.specs.Systems.{Lts, Lawful};
ghost use Rattle.actions.specs.Transitions.{Kth};
ghost use Rattle.rules.specs.Derived.{Follows};

use actions::action::Action;
use systems::system::System;

// An operator that keeps the states of a system and changes its transitions.
pub trait Relabels {
    // What it makes of a system.
    ghost made: { Self → Lts → Lts };

    ghost lawful: { (x : Self) (M : Lts) → Lawful M → Lawful (made x M) };

    // The rules of what it makes, as a relation of state, action and target.
    ghost rule: { Self → Lts → ℕ → ℕ → ℕ → Type 0 };

    fn count<S: System>(&self, below: &S, s: usize) -> usize
        ensures { result ≡ length ((made self.now (S.System.meaning below.now)).moves s) };

    fn nth<S: System>(&self, below: &S, s: usize, k: usize) -> Option<(Action, usize)>
        ensures { Kth ((made self.now (S.System.meaning below.now)).moves s) k result };

    ghost sized: { (x : Self) (M : Lts) → ((made x M).n ≡ M.n) × ((made x M).w ≡ M.w) };

    ghost follows: { (x : Self) (M : Lts) → Lawful M → Follows (made x M) (rule x M) };
}

// What an operator makes of the system below.
#[derive(Drop)]
pub struct Relabelled<O, S> {
    operator: O,
    below: S,
}

impl<O: Relabels, S: System> Relabelled<O, S> {
    pub fn by(operator: O, below: S) -> Relabelled<O, S>
        ensures parts { (result.operator ≡ operator) × (result.below ≡ below) }
        ensures rules { Follows (O.Relabels.made result.operator (S.System.meaning result.below)) (O.Relabels.rule operator (S.System.meaning below)) }
    {
        Relabelled { operator, below }
    }
}

impl<O: Relabels, S: System> System for Relabelled<O, S> {
    ghost meaning = { λ x. O.Relabels.made x.operator (S.System.meaning x.below) };

    ghost lawful = { λ x. O.Relabels.lawful x.operator (S.System.meaning x.below) (S.System.lawful x.below) };

    fn states(&self) -> usize {
        self.below.states()
    }

    fn width(&self) -> usize {
        self.below.width()
    }

    fn count(&self, s: usize) -> usize {
        self.operator.count(&self.below, s)
    }

    fn nth(&self, s: usize, k: usize) -> Option<(Action, usize)> {
        self.operator.nth(&self.below, s, k)
    }
}
