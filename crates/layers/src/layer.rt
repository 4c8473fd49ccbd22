ghost use Rattle.std.specs.Prelude.{◌≡◌};
ghost use Rattle.theory.specs.Layers.{Layering};

use super::known::Known;
use actions::action::Action;
use systems::system::System;

// A rule for which transitions count: one bit is read off all transitions of a state, and then each action is kept or not.
pub trait Layer: Known {
    ghost rule: { Layering };

    fn is_calm<S: System>(system: &S, s: usize) -> bool
        ensures { result ≡ rule.calm ((S.System.meaning system.now).moves s) };

    fn keeps(calm: bool, a: Action) -> bool
        ensures { result ≡ rule.keeps calm a.code };
}
