ghost use Rattle.systems.specs.Listings.{listed, listed_lawful};

use super::Listed;
use crate::system::System;
use actions::action::Action;

impl System for Listed {
    ghost meaning = { listed };

    ghost lawful = { listed_lawful };

    fn states(&self) -> usize {
        self.states.len()
    }

    fn width(&self) -> usize {
        self.w
    }

    fn count(&self, s: usize) -> usize {
        self.states.get(s).map_or(0, |list| list.len())
    }

    fn nth(&self, s: usize, k: usize) -> Option<(Action, usize)> {
        self.states.get(s)?.get(k).copied()
    }
}
