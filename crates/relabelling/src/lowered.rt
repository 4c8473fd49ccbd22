ghost use Rattle.std.specs.Prelude.{◌≡◌, refl};
ghost use Rattle.theory.specs.Operators.{lower};
ghost use Rattle.theory.proofs.OperatorLaws.{lower_lawful};
ghost use Rattle.rules.specs.Rules.{LoweringRule};
ghost use Rattle.rules.specs.Derived.{Follows};
ghost use Rattle.rules.proofs.Following.{lowering_follows};

use super::recoded::nth_recoded_in_patience;
use super::relabelled::{Relabelled, Relabels};
use actions::action::Action;
use actions::pair::ChannelPair;
use actions::recoding::Lower;
use systems::system::System;

// As raising in its code, but its theorems are others.
impl Relabels for Lower {
    ghost made = { λ x M. lower x.pair.first x.pair.second M };

    ghost lawful = { λ x M h. lower_lawful x.pair.first x.pair.second M h };

    ghost rule = { λ x M. LoweringRule x.pair.first x.pair.second M };

    fn count<S: System>(&self, below: &S, s: usize) -> usize {
        below.count(s)
    }

    fn nth<S: System>(&self, below: &S, s: usize, k: usize) -> Option<(Action, usize)> {
        nth_recoded_in_patience(below, s, k, self)
    }

    ghost sized = { λ x M. (refl, refl) };

    ghost follows = { λ x M h. lowering_follows x.pair.first x.pair.second M h };
}

// A system whose prioritised actions on listed channels are unprioritised in patient states. The first word of the pair
// lists names, the second co-names.
pub type Lowered<S> = Relabelled<Lower, S>;

impl<S: System> Lowered<S> {
    pub fn new(pair: ChannelPair, below: S) -> Lowered<S>
        ensures parts { (result.operator.pair ≡ pair) × (result.below ≡ below) }
        ensures rules { Follows (lower result.operator.pair.first result.operator.pair.second (S.System.meaning result.below)) (LoweringRule pair.first pair.second (S.System.meaning below)) }
    {
        Relabelled::by(Lower { pair }, below)
    }
}
