ghost use Rattle.std.specs.Prelude.{◌≡◌, IfOk, filter};
ghost use Rattle.theory.specs.Operators.{open_move};
ghost use Rattle.actions.specs.Transitions.{moves_of};

use actions::action::Action;
use actions::pair::ChannelPair;
use std::alloc::{AllocError, Global};

// The transitions that a restriction by the pair leaves.
pub fn kept(
    heap: Global,
    ms: &[(Action, usize)],
    pair: ChannelPair,
) -> Result<Vec<(Action, usize)>, AllocError>
    ensures { IfOk result (λ v. moves_of v.items ≡ filter (open_move pair.first pair.second) (moves_of ms.now)) }
{
    ms.iter()
        .filter_map(|m| (!m.0.is_barred_by(pair)).then_some(*m))
        .collect(heap)
}
