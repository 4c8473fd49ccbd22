ghost use Rattle.composition.specs.Sizes.{Limited};

use systems::limits::{MOST_STATES, WIDEST};

// How large a system is.
#[derive(Clone, Copy)]
pub struct Size {
    pub states: usize,
    pub width: usize,
}

impl Size {
    // The size of an operator's system with limits: `ok` says that its starts are states and no part is outsize.
    pub fn limited(self, ok: bool) -> Size
        ensures { Limited ok self result }
    {
        if ok && self.states <= MOST_STATES && self.width <= WIDEST {
            self
        } else {
            // An outsize system is asked like any other, and answers zeros.
            Size {
                states: 0,
                width: 0,
            }
        }
    }
}
