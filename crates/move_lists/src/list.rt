ghost use Rattle.std.specs.Prelude.{◌≤◌};
ghost use Rattle.actions.specs.Transitions.{Inside};

use actions::action::Action;

// The transitions of a state of a system of so many states.
#[derive(Drop)]
pub struct MoveList {
    pub states: usize,
    pub moves: Vec<(Action, usize)>,
    ghost few: { states ≤ 1024 },
    ghost inside: { Inside moves.items states },
}

mod changes;
