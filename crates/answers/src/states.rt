ghost use Rattle.std.specs.Prelude.{◌≡◌, ◌≤◌};
ghost use Rattle.answers.specs.Calms.{Calms};

use super::state::ShownState;
use layers::layer::Layer;
use std::marker::PhantomData;
use systems::limits::MOST_STATES;
use systems::system::System;

// The states of a system as the layer Y shows them. Which are calm is read off once for all,
// into fixed memory: a comparison allocates nothing.
#[derive(Drop)]
pub struct ShownStates<'a, Y: Layer, S: System> {
    pub system: &'a S,
    calms: [bool; MOST_STATES],
    layer: PhantomData<Y>,
    ghost calms_are: { Calms Y.Layer.rule (S.System.meaning system.now) calms },
}

impl<'a, Y: Layer, S: System> ShownStates<'a, Y, S> {
    pub fn of(system: &'a S) -> ShownStates<'a, Y, S>
        ensures { result.system.now ≡ system.now }
    {
        let mut calms = [false; MOST_STATES];
        for (s, calm) in calms[..system.states()].iter_mut().enumerate() {
            *calm = Y::is_calm(system, s);
        }
        ShownStates {
            system,
            calms,
            layer: PhantomData,
        }
    }

    pub fn state(&self, s: usize) -> ShownState<'a, Y, S>
        ensures { (result.system.now ≡ self.now.system.now) × (result.s ≡ s) }
    {
        if s >= self.system.states() {
            return ShownState::of(self.system, s);
        }
        ShownState {
            system: self.system,
            s,
            calm: self.calms[s],
            layer: PhantomData,
        }
    }
}
