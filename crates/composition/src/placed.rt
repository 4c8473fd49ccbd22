ghost use Rattle.std.specs.Prelude.{◌≡◌, ◌≤◌, map};
ghost use Rattle.theory.specs.Operators.{placed};
ghost use Rattle.actions.specs.Transitions.{Kth};

use actions::action::Action;
use systems::system::System;

// Where the states of a part lie in the whole: its state t is the state t * factor + shift.
#[derive(Clone, Copy)]
pub(crate) struct Place {
    pub factor: usize,
    pub shift: usize,
    ghost factor_small: { factor ≤ 1024 },
    ghost shift_small: { shift ≤ 1048576 },
}

impl Place {
    pub(crate) fn after(shift: usize) -> Place
        requires { shift ≤ 1048576 }
        ensures { (result.factor ≡ 1) × (result.shift ≡ shift) }
    {
        Place { factor: 1, shift }
    }

    // The k-th transition of a state of the part, with its target as a state of the whole.
    pub(crate) fn nth<S: System>(self, part: &S, s: usize, k: usize) -> Option<(Action, usize)>
        ensures { Kth (map (placed self.factor self.shift) ((S.System.meaning part.now).moves s)) k result }
    {
        let m = part.nth(s, k)?;
        Some((m.0, m.1 * self.factor + self.shift))
    }
}
