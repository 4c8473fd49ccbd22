ghost use Rattle.std.specs.Prelude.{◌≡◌, ℕ, Bool, length};
ghost use Rattle.actions.specs.Transitions.{Kth};
ghost use Rattle.filters.specs.Kept.{kept};

use actions::action::Action;
use systems::system::System;
use systems::transitions::transitions_of;

// A test of actions.
pub trait Keeps {
    ghost passes: { Self → ℕ → Bool };

    fn keeps(&self, a: Action) -> bool
        ensures { result ≡ passes self.now a.code };
}

// How many transitions of the state pass.
pub fn count_kept<S: System, P: Keeps>(system: &S, s: usize, test: &P) -> usize
    ensures { result ≡ length (kept (P.Keeps.passes test.now) ((S.System.meaning system.now).moves s)) }
{
    // Counted, since a transition past the last may cost more to ask for than their number.
    transitions_of(system, s)
        .take(system.count(s))
        .filter(|m| test.keeps(m.0))
        .count()
}

// The k-th of those that pass, counted from 0.
pub fn nth_kept<S: System, P: Keeps>(
    system: &S,
    s: usize,
    k: usize,
    test: &P,
) -> Option<(Action, usize)>
    ensures { Kth (kept (P.Keeps.passes test.now) ((S.System.meaning system.now).moves s)) k result }
{
    transitions_of(system, s).filter(|m| test.keeps(m.0)).nth(k)
}
