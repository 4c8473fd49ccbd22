ghost use Rattle.std.specs.Prelude.{◌≡◌};
ghost use Rattle.theory.specs.Layers.{shown};
ghost use Rattle.actions.specs.Transitions.{Kth};

use actions::action::Action;
use layers::layer::Layer;
use std::alloc::AllocError;
use std::marker::PhantomData;
use systems::system::System;
use systems::transitions::transitions_of;

// A state of a system as the layer Y shows it. Whether it is calm is read off once.
pub struct ShownState<'a, Y: Layer, S: System> {
    pub system: &'a S,
    pub s: usize,
    pub calm: bool,
    pub layer: PhantomData<Y>,
    ghost calm_is: { calm ≡ Y.Layer.rule.calm ((S.System.meaning system.now).moves s) },
}

impl<'a, Y: Layer, S: System> ShownState<'a, Y, S> {
    pub fn of(system: &'a S, s: usize) -> ShownState<'a, Y, S>
        ensures { (result.system.now ≡ system.now) × (result.s ≡ s) }
    {
        ShownState {
            system,
            s,
            calm: Y::is_calm(system, s),
            layer: PhantomData,
        }
    }

    // The k-th of its transitions that count.
    pub fn nth(self, k: usize) -> Option<(Action, usize)>
        ensures { Kth ((shown Y.Layer.rule (S.System.meaning self.entry.system.now)).moves self.entry.s) k result }
    {
        transitions_of(self.system, self.s)
            .filter(|m| Y::keeps(self.calm, m.0))
            .nth(k)
    }
}

// A derive would ask Clone and Copy of Y and S, and derive_where takes no ghost field.
impl<Y: Layer, S: System> Clone for ShownState<'_, Y, S> {
    fn clone(&self) -> Result<Self, AllocError> {
        Ok(*self)
    }
}

impl<Y: Layer, S: System> Copy for ShownState<'_, Y, S> {}
