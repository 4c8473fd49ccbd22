ghost use Rattle.std.specs.Prelude.{◌≡◌, length};
ghost use Rattle.theory.specs.Systems.{Lts, Lawful};
ghost use Rattle.actions.specs.Transitions.{Kth};

use actions::action::Action;

// A system to be compared or composed: its meaning is a labelled transition system that keeps the laws. No question alters it.
pub trait System {
    ghost meaning: { Self → Lts };

    ghost lawful: { (x : Self) → Lawful (meaning x) };

    // How many states there are, 0 for an outsize system.
    fn states(&self) -> usize
        ensures { result ≡ (meaning self.now).n };

    // No state has more transitions.
    fn width(&self) -> usize
        ensures { result ≡ (meaning self.now).w };

    // How many transitions the state has, 0 if there is no such state.
    fn count(&self, s: usize) -> usize
        ensures { result ≡ length ((meaning self.now).moves s) };

    // The k-th transition of the state, counted from 0: an action and a target.
    fn nth(&self, s: usize, k: usize) -> Option<(Action, usize)>
        ensures { Kth ((meaning self.now).moves s) k result };
}

// A lent system. Each question is passed on, since each has a name and a contract of its own.
impl<S: System> System for &S {
    ghost meaning = { λ x. S.System.meaning x.now };

    ghost lawful = { λ x. S.System.lawful x.now };

    fn states(&self) -> usize {
        (**self).states()
    }

    fn width(&self) -> usize {
        (**self).width()
    }

    fn count(&self, s: usize) -> usize {
        (**self).count(s)
    }

    fn nth(&self, s: usize, k: usize) -> Option<(Action, usize)> {
        (**self).nth(s, k)
    }
}
