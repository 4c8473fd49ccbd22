ghost use Rattle.theory.specs.Operators.{nil};
ghost use Rattle.theory.proofs.OperatorLaws.{nil_lawful};
ghost use Rattle.rules.specs.Derived.{Follows};

use actions::action::Action;
use systems::system::System;

// The process that does nothing: one state, no transition.
#[derive(Clone, Copy)]
pub struct Nil;

impl Nil {
    pub fn new() -> Nil
        ensures { Follows nil (λ s a t. ⊥) }
    {
        Nil
    }
}

impl System for Nil {
    ghost meaning = { λ _. nil };

    ghost lawful = { λ _. nil_lawful };

    fn states(&self) -> usize {
        1
    }

    fn width(&self) -> usize {
        0
    }

    fn count(&self, _s: usize) -> usize {
        0
    }

    fn nth(&self, _s: usize, _k: usize) -> Option<(Action, usize)> {
        None
    }
}
