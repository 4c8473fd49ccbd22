ghost use Rattle.std.specs.Prelude.{◌≡◌, IfOk};
ghost use Rattle.theory.specs.Systems.{Lts, Lawful};
ghost use Rattle.actions.specs.Transitions.{moves_of};

use super::system::System;
use super::transitions::transitions_of;
use actions::action::Action;
use std::alloc::{AllocError, Global};

// What a system can be worked out from: it hands out a state's transitions all at once.
pub trait Lists {
    ghost meaning: { Self → Lts };

    ghost lawful: { (x : Self) → Lawful (meaning x) };

    fn states(&self) -> usize
        ensures { result ≡ (meaning self.now).n };

    fn width(&self) -> usize
        ensures { result ≡ (meaning self.now).w };

    fn list(&self, heap: Global, s: usize) -> Result<Vec<(Action, usize)>, AllocError>
        ensures { IfOk result (λ v. moves_of v.items ≡ (meaning self.now).moves s) };
}

// Any system, asked for one transition after another.
#[derive(Drop)]
pub struct Asked<'a, S> {
    system: &'a S,
}

impl<'a, S> Asked<'a, S> {
    pub fn of(system: &'a S) -> Asked<'a, S>
        ensures { result.system.now ≡ system.now }
    {
        Asked { system }
    }
}

impl<'a, S: System> Lists for Asked<'a, S> {
    ghost meaning = { λ x. S.System.meaning x.system.now };

    ghost lawful = { λ x. S.System.lawful x.system.now };

    fn states(&self) -> usize {
        self.system.states()
    }

    fn width(&self) -> usize {
        self.system.width()
    }

    // Room for all is made at once, and none is asked for past the last.
    fn list(&self, heap: Global, s: usize) -> Result<Vec<(Action, usize)>, AllocError> {
        let count = self.system.count(s);
        let mut list = Vec::with_capacity(heap, count)?;
        list.extend(transitions_of(self.system, s).take(count))?;
        Ok(list)
    }
}
