ghost use Rattle.std.specs.Prelude.{◌≡◌, map, IfOk};
ghost use Rattle.theory.specs.Operators.{recoded};
ghost use Rattle.actions.specs.Transitions.{moves_of};

use actions::action::Action;
use actions::recoding::Recodes;
use std::alloc::{AllocError, Global};

// The same transitions with other actions.
pub fn changed_by<R: Recodes>(
    heap: Global,
    ms: &[(Action, usize)],
    by: &R,
) -> Result<Vec<(Action, usize)>, AllocError>
    ensures { IfOk result (λ v. moves_of v.items ≡ map (recoded (R.Recodes.code by.now)) (moves_of ms.now)) }
{
    ms.iter().map(|m| (by.recoded(m.0), m.1)).collect(heap)
}
