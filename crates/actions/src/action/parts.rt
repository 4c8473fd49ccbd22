// What an action is made of, and which actions meet.
ghost use Rattle.std.specs.Prelude.{◌≡◌, ◌/◌, not, if◌then◌else◌, Some, None};
ghost use Rattle.theory.specs.Codes.{visible, prioritised, co_name, meets as meeting};

use super::Action;

impl Action {
    pub fn is_inner(self) -> bool
        ensures { result ≡ not (visible self.code) }
    {
        self.code < 4
    }

    pub fn channel(self) -> Option<u8>
        ensures { result ≡ (if visible self.code then Some (self.code / 4) else None) }
    {
        if self.is_inner() {
            None
        } else {
            Some(self.code / 4)
        }
    }

    pub fn is_prioritised(self) -> bool
        ensures { result ≡ prioritised self.code }
    {
        self.code % 2 == 1
    }

    pub fn is_co_name(self) -> bool
        ensures { result ≡ co_name self.code }
    {
        !self.is_inner() && self.code / 2 % 2 == 1
    }

    pub fn meets(self, other: Action) -> bool
        ensures { result ≡ meeting self.code other.code }
    {
        !self.is_inner()
            && self.channel() == other.channel()
            && self.is_prioritised() == other.is_prioritised()
            && self.is_co_name() != other.is_co_name()
    }
}
