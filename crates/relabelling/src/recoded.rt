ghost use Rattle.std.specs.Prelude.{map};
ghost use Rattle.theory.specs.Operators.{recoded, recoded_moves};
ghost use Rattle.actions.specs.Transitions.{Kth};

use actions::action::Action;
use actions::recoding::Recodes;
use layers::layer::Layer;
use layers::standing::Standing;
use systems::system::System;

// The k-th transition of the state, with its action recoded.
pub fn nth_recoded<S: System, R: Recodes>(
    below: &S,
    s: usize,
    k: usize,
    by: &R,
) -> Option<(Action, usize)>
    ensures { Kth (map (recoded (R.Recodes.code by.now)) ((S.System.meaning below.now).moves s)) k result }
{
    let m = below.nth(s, k)?;
    Some((by.recoded(m.0), m.1))
}

// The same where the state is patient; an impatient state keeps its actions. Patience is looked for only where there is a
// transition, so that in a nest a question past the last one goes down once.
pub fn nth_recoded_in_patience<S: System, R: Recodes>(
    below: &S,
    s: usize,
    k: usize,
    by: &R,
) -> Option<(Action, usize)>
    ensures { Kth (recoded_moves (R.Recodes.code by.now) ((S.System.meaning below.now).moves s)) k result }
{
    let m = below.nth(s, k)?;
    if Standing::is_calm(below, s) {
        Some((by.recoded(m.0), m.1))
    } else {
        Some(m)
    }
}
