ghost use Rattle.std.specs.Prelude.{◌≡◌};
ghost use Rattle.theory.specs.Layers.{shown};
ghost use Rattle.theory.proofs.Laws.{shown_lawful};

use super::layer::Layer;
use actions::action::Action;
use filters::kept::{Keeps, count_kept, nth_kept};
use std::marker::PhantomData;
use systems::system::System;

// Passes what the layer Y keeps in a state of this calm.
#[derive(Drop)]
struct Shown<Y> {
    calm: bool,
    layer: PhantomData<Y>,
}

impl<Y: Layer> Keeps for Shown<Y> {
    ghost passes = { λ x a. Y.Layer.rule.keeps x.calm a };

    fn keeps(&self, a: Action) -> bool {
        Y::keeps(self.calm, a)
    }
}

// A system that shows only the transitions that count under the layer Y.
#[derive(Drop)]
pub struct Layered<Y, S> {
    below: S,
    layer: PhantomData<Y>,
}

impl<Y, S> Layered<Y, S> {
    pub fn over(below: S) -> Layered<Y, S>
        ensures { result.below ≡ below }
    {
        Layered {
            below,
            layer: PhantomData,
        }
    }
}

impl<Y: Layer, S: System> Layered<Y, S> {
    fn test_of(&self, s: usize) -> Shown<Y>
        ensures { result.calm ≡ Y.Layer.rule.calm ((S.System.meaning self.now.below).moves s) }
    {
        Shown {
            calm: Y::is_calm(&self.below, s),
            layer: PhantomData,
        }
    }
}

impl<Y: Layer, S: System> System for Layered<Y, S> {
    ghost meaning = { λ x. shown Y.Layer.rule (S.System.meaning x.below) };

    ghost lawful = { λ x. shown_lawful Y.Layer.rule (S.System.meaning x.below) (S.System.lawful x.below) };

    fn states(&self) -> usize {
        self.below.states()
    }

    fn width(&self) -> usize {
        self.below.width()
    }

    fn count(&self, s: usize) -> usize {
        count_kept(&self.below, s, &self.test_of(s))
    }

    fn nth(&self, s: usize, k: usize) -> Option<(Action, usize)> {
        nth_kept(&self.below, s, k, &self.test_of(s))
    }
}
