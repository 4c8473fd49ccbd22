ghost use Rattle.std.specs.Prelude.{◌≡◌};
ghost use Rattle.std.specs.Iterator.{YieldsFirstBy, item_count};
ghost use Rattle.actions.specs.Transitions.{move_of};
ghost use Rattle.systems.specs.Ahead.{ahead};

use super::system::System;
use actions::action::Action;

// The transitions of a state, one after another.
#[derive(Drop)]
pub struct Transitions<'a, S> {
    system: &'a S,
    s: usize,
    k: usize,
}

pub fn transitions_of<S: System>(system: &S, s: usize) -> Transitions<S>
    ensures { ahead (S.System.meaning result.system.now) result.s result.k ≡ (S.System.meaning system.now).moves s }
{
    Transitions { system, s, k: 0 }
}

impl<'a, S: System> Iterator for Transitions<'a, S> {
    type Item = (Action, usize);

    ghost next_gives = { YieldsFirstBy move_of (λ x. ahead (S.System.meaning x.system.now) x.s x.k) };

    ghost remaining = { item_count (λ x. ahead (S.System.meaning x.system.now) x.s x.k) };

    fn next(&mut self) -> Option<(Action, usize)> {
        let m = self.system.nth(self.s, self.k)?;
        self.k += 1;
        Some(m)
    }
}
