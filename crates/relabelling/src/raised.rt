ghost use Rattle.std.specs.Prelude.{◌≡◌, refl};
ghost use Rattle.theory.specs.Operators.{raise};
ghost use Rattle.theory.proofs.OperatorLaws.{raise_lawful};
ghost use Rattle.rules.specs.Rules.{RaisingRule};
ghost use Rattle.rules.specs.Derived.{Follows};
ghost use Rattle.rules.proofs.Following.{raising_follows};

use super::recoded::nth_recoded_in_patience;
use super::relabelled::{Relabelled, Relabels};
use actions::action::Action;
use actions::pair::ChannelPair;
use actions::recoding::Raise;
use systems::system::System;

impl Relabels for Raise {
    ghost made = { λ x M. raise x.pair.first x.pair.second M };

    ghost lawful = { λ x M h. raise_lawful x.pair.first x.pair.second M h };

    ghost rule = { λ x M. RaisingRule x.pair.first x.pair.second M };

    fn count<S: System>(&self, below: &S, s: usize) -> usize {
        below.count(s)
    }

    fn nth<S: System>(&self, below: &S, s: usize, k: usize) -> Option<(Action, usize)> {
        nth_recoded_in_patience(below, s, k, self)
    }

    ghost sized = { λ x M. (refl, refl) };

    ghost follows = { λ x M h. raising_follows x.pair.first x.pair.second M h };
}

// A system whose unprioritised actions on listed channels are prioritised in patient states. The first word of the pair
// lists names, the second co-names.
pub type Raised<S> = Relabelled<Raise, S>;

impl<S: System> Raised<S> {
    pub fn new(pair: ChannelPair, below: S) -> Raised<S>
        ensures parts { (result.operator.pair ≡ pair) × (result.below ≡ below) }
        ensures rules { Follows (raise result.operator.pair.first result.operator.pair.second (S.System.meaning result.below)) (RaisingRule pair.first pair.second (S.System.meaning below)) }
    {
        Relabelled::by(Raise { pair }, below)
    }
}
