// What the operators do to one action.
ghost use Rattle.std.specs.Prelude.{◌≡◌, ◌+◌, ◌*◌, ◌/◌, if◌then◌else◌};
ghost use Rattle.theory.specs.Codes.{barred, listed, raised, lowered, renamed};

use super::Action;
use crate::pair::ChannelPair;
use crate::renaming::Renaming;

impl Action {
    // A restriction by the pair drops the action.
    pub fn is_barred_by(self, pair: ChannelPair) -> bool
        ensures { result ≡ barred pair.first pair.second self.code }
    {
        !self.is_inner() && pair.has(self.is_prioritised(), self.code / 4)
    }

    fn is_listed_in(self, pair: ChannelPair) -> bool
        ensures { result ≡ listed pair.first pair.second self.code }
    {
        !self.is_inner() && pair.has(self.is_co_name(), self.code / 4)
    }

    // In the class that is asked for, if the pair lists the action.
    fn in_class(self, pair: ChannelPair, prioritised: bool) -> Action
        ensures { result.code ≡ (if listed pair.first pair.second self.code then self.code / 2 * 2 + (if prioritised then 1 else 0) else self.code) }
    {
        if self.is_listed_in(pair) {
            Action {
                code: self.code / 2 * 2 + u8::from(prioritised),
            }
        } else {
            self
        }
    }

    pub fn raised_by(self, pair: ChannelPair) -> Action
        ensures { result.code ≡ raised pair.first pair.second self.code }
    {
        self.in_class(pair, true)
    }

    pub fn lowered_by(self, pair: ChannelPair) -> Action
        ensures { result.code ≡ lowered pair.first pair.second self.code }
    {
        self.in_class(pair, false)
    }

    pub fn renamed_by(self, renaming: Renaming) -> Action
        ensures { result.code ≡ renamed renaming.class renaming.from renaming.to self.code }
    {
        if self.channel() == Some(renaming.from()) && self.code % 2 == renaming.class() {
            Action {
                code: 4 * renaming.to() + self.code % 4,
            }
        } else {
            self
        }
    }
}
