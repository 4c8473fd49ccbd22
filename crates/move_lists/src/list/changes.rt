// What operators that keep the states make of a list.
ghost use Rattle.std.specs.Prelude.{◌≡◌, map, filter, IfOk};
ghost use Rattle.theory.specs.Layers.{patient};
ghost use Rattle.theory.specs.Operators.{open_move, recoded};
ghost use Rattle.actions.specs.Transitions.{moves_of};
ghost use Rattle.move_lists.specs.MoveLists.{held};

use super::MoveList;
use crate::keeping::kept;
use crate::patience::is_patient;
use crate::recoding::changed_by;
use actions::action::Action;
use actions::pair::ChannelPair;
use actions::recoding::Recodes;
use std::alloc::{AllocError, Global};

impl MoveList {
    pub fn as_slice(&self) -> &[(Action, usize)]
        ensures { moves_of result.now ≡ held self.now }
    {
        self.moves.as_slice()
    }

    pub fn is_patient(&self) -> bool
        ensures { result ≡ patient (held self.now) }
    {
        is_patient(&self.moves)
    }

    // What a restriction by the pair leaves.
    pub fn kept(&self, heap: Global, pair: ChannelPair) -> Result<MoveList, AllocError>
        ensures { IfOk result (λ x. (x.states ≡ self.now.states) × (held x ≡ filter (open_move pair.first pair.second) (held self.now))) }
    {
        Ok(MoveList {
            states: self.states,
            moves: kept(heap, &self.moves, pair)?,
        })
    }

    // The same transitions with other actions.
    pub fn changed_by<R: Recodes>(&self, heap: Global, by: &R) -> Result<MoveList, AllocError>
        ensures { IfOk result (λ x. (x.states ≡ self.now.states) × (held x ≡ map (recoded (R.Recodes.code by.now)) (held self.now))) }
    {
        Ok(MoveList {
            states: self.states,
            moves: changed_by(heap, &self.moves, by)?,
        })
    }
}
