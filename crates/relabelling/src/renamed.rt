ghost use Rattle.std.specs.Prelude.{◌≡◌, refl};
ghost use Rattle.theory.specs.Operators.{rename};
ghost use Rattle.theory.proofs.OperatorLaws.{rename_lawful};
ghost use Rattle.rules.specs.Rules.{RenamingRule};
ghost use Rattle.rules.specs.Derived.{Follows};
ghost use Rattle.rules.proofs.Following.{renaming_follows};

use super::recoded::nth_recoded;
use super::relabelled::{Relabelled, Relabels};
use actions::action::Action;
use actions::renaming::Renaming;
use systems::system::System;

impl Relabels for Renaming {
    ghost made = { λ x M. rename x.class x.from x.to M };

    ghost lawful = { λ x M h. rename_lawful x.class x.from x.to M x.to_lawful h };

    ghost rule = { λ x M. RenamingRule x.class x.from x.to M };

    fn count<S: System>(&self, below: &S, s: usize) -> usize {
        below.count(s)
    }

    fn nth<S: System>(&self, below: &S, s: usize, k: usize) -> Option<(Action, usize)> {
        nth_recoded(below, s, k, self)
    }

    ghost sized = { λ x M. (refl, refl) };

    ghost follows = { λ x M h. renaming_follows x.class x.from x.to M x.class_lawful x.from_lawful h };
}

// A system whose actions of one class on one channel are on another.
pub type Renamed<S> = Relabelled<Renaming, S>;

impl<S: System> Renamed<S> {
    pub fn new(renaming: Renaming, below: S) -> Renamed<S>
        ensures parts { (result.operator ≡ renaming) × (result.below ≡ below) }
        ensures rules { Follows (rename result.operator.class result.operator.from result.operator.to (S.System.meaning result.below)) (RenamingRule renaming.class renaming.from renaming.to (S.System.meaning below)) }
    {
        Relabelled::by(renaming, below)
    }
}
