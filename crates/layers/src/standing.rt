ghost use Rattle.std.specs.Prelude.{◌≡◌, ℕ, ◌↔◌};
ghost use Rattle.theory.specs.Systems.{Moves};
ghost use Rattle.theory.specs.Layers.{standing_layer, standing as standing_of, Stands};

use super::known::Known;
use super::layer::Layer;
use super::layered::Layered;
use actions::action::Action;
use systems::system::System;
use systems::transitions::transitions_of;

// The layer of what stands: every prioritised transition, and the others in patient states only, that is where no
// transition is the prioritised inner action.
#[derive(Clone, Copy)]
pub struct Standing;

impl Known for Standing {}

impl Layer for Standing {
    ghost rule = { standing_layer };

    fn is_calm<S: System>(system: &S, s: usize) -> bool {
        // Counted, since a transition past the last may cost more to ask for than their number.
        transitions_of(system, s)
            .take(system.count(s))
            .all(|m| m.0 != Action::inner(true))
    }

    fn keeps(calm: bool, a: Action) -> bool {
        calm || a.is_prioritised()
    }
}

impl Standing {
    // The system of what stands: a transition is in it exactly by one of the two clauses, that it is prioritised, or that
    // its state is patient.
    pub fn over<S: System>(below: S) -> Layered<Standing, S>
        ensures below { result.below ≡ below }
        ensures clauses { (s a t : ℕ) → Moves (standing_of (S.System.meaning result.below)) s a t ↔ Stands (S.System.meaning below) s a t }
    {
        Layered::over(below)
    }
}
