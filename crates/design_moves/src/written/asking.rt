ghost use Rattle.systems.specs.Listings.{listed_lawful};
ghost use Rattle.design_moves.specs.WrittenDesigns.{meant};

use super::WrittenDesign;
use actions::action::Action;
use systems::system::System;

// Each question is passed on to the store: a design is more than its store, which does not know the start.
impl System for WrittenDesign {
    ghost meaning = { λ x. (meant x).sys };

    ghost lawful = { λ x. listed_lawful x.states };

    fn states(&self) -> usize {
        self.states.states()
    }

    fn width(&self) -> usize {
        self.states.width()
    }

    fn count(&self, s: usize) -> usize {
        self.states.count(s)
    }

    fn nth(&self, s: usize, k: usize) -> Option<(Action, usize)> {
        self.states.nth(s, k)
    }
}
