ghost use Rattle.std.specs.Prelude.{◌≡◌, not, refl};
ghost use Rattle.theory.specs.Codes.{barred};
ghost use Rattle.theory.specs.Operators.{restrict};
ghost use Rattle.theory.proofs.OperatorLaws.{restrict_lawful};
ghost use Rattle.rules.specs.Rules.{RestrictionRule};
ghost use Rattle.rules.specs.Derived.{Follows};
ghost use Rattle.rules.proofs.Following.{restriction_follows};

use super::relabelled::{Relabelled, Relabels};
use actions::action::Action;
use actions::pair::ChannelPair;
use filters::kept::{Keeps, count_kept, nth_kept};
use systems::system::System;

// Passes what a restriction by the pair lets through.
#[derive(Clone, Copy)]
pub struct Unbarred {
    pair: ChannelPair,
}

impl Keeps for Unbarred {
    ghost passes = { λ x a. not (barred x.pair.first x.pair.second a) };

    fn keeps(&self, a: Action) -> bool {
        !a.is_barred_by(self.pair)
    }
}

impl Relabels for Unbarred {
    ghost made = { λ x M. restrict x.pair.first x.pair.second M };

    ghost lawful = { λ x M h. restrict_lawful x.pair.first x.pair.second M h };

    ghost rule = { λ x M. RestrictionRule x.pair.first x.pair.second M };

    fn count<S: System>(&self, below: &S, s: usize) -> usize {
        count_kept(below, s, self)
    }

    fn nth<S: System>(&self, below: &S, s: usize, k: usize) -> Option<(Action, usize)> {
        nth_kept(below, s, k, self)
    }

    ghost sized = { λ x M. (refl, refl) };

    ghost follows = { λ x M h. restriction_follows x.pair.first x.pair.second M h };
}

// A system without its actions on the channels of the pair: the first word is for unprioritised actions, the second for
// prioritised ones, and both are for names and co-names.
pub type Restriction<S> = Relabelled<Unbarred, S>;

impl<S: System> Restriction<S> {
    pub fn new(pair: ChannelPair, below: S) -> Restriction<S>
        ensures parts { (result.operator.pair ≡ pair) × (result.below ≡ below) }
        ensures rules { Follows (restrict result.operator.pair.first result.operator.pair.second (S.System.meaning result.below)) (RestrictionRule pair.first pair.second (S.System.meaning below)) }
    {
        Relabelled::by(Unbarred { pair }, below)
    }
}
