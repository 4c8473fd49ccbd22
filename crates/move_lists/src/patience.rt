ghost use Rattle.std.specs.Prelude.{◌≡◌};
ghost use Rattle.theory.specs.Layers.{patient};
ghost use Rattle.actions.specs.Transitions.{moves_of};

use actions::action::Action;

// No transition is the prioritised inner action.
pub fn is_patient(ms: &[(Action, usize)]) -> bool
    ensures { result ≡ patient (moves_of ms.now) }
{
    ms.iter().all(|m| m.0 != Action::inner(true))
}
