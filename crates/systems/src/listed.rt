ghost use Rattle.std.specs.Prelude.{◌≡◌, ℕ, ◌≤◌, map, length, vec_items};
ghost use Rattle.actions.specs.Transitions.{Inside};
ghost use Rattle.systems.specs.StateLists.{list_at};

use actions::action::Action;

// A system that is worked out: each state with its list of transitions, so that each question is a read.
#[derive(Drop)]
pub struct Listed {
    pub(crate) w: usize,
    pub(crate) states: Vec<Vec<(Action, usize)>>,
    ghost few: { length states.items ≤ 1024 },
    ghost narrow: { w ≤ 4096 },
    ghost short: { (s : ℕ) → length (list_at (map vec_items states.items) s) ≤ w },
    ghost inside: { (s : ℕ) → Inside (list_at (map vec_items states.items) s) (length states.items) },
    ghost empty: { length states.items ≡ 0 → w ≡ 0 },
}

mod fill;
mod reads;
