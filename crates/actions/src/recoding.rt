ghost use Rattle.std.specs.Prelude.{◌≡◌, ℕ};
ghost use Rattle.theory.specs.Codes.{raised, lowered, renamed};

use super::action::Action;
use super::pair::ChannelPair;
use super::renaming::Renaming;

// What an operator makes of an action.
pub trait Recodes {
    ghost code: { Self → ℕ → ℕ };

    fn recoded(&self, a: Action) -> Action
        ensures { result.code ≡ code self.now a.code };
}

impl Recodes for Renaming {
    ghost code = { λ x. renamed x.class x.from x.to };

    fn recoded(&self, a: Action) -> Action {
        a.renamed_by(*self)
    }
}

// Raises what the pair lists.
#[derive(Clone, Copy)]
pub struct Raise {
    pub pair: ChannelPair,
}

impl Recodes for Raise {
    ghost code = { λ x. raised x.pair.first x.pair.second };

    fn recoded(&self, a: Action) -> Action {
        a.raised_by(self.pair)
    }
}

// Lowers what the pair lists.
#[derive(Clone, Copy)]
pub struct Lower {
    pub pair: ChannelPair,
}

impl Recodes for Lower {
    ghost code = { λ x. lowered x.pair.first x.pair.second };

    fn recoded(&self, a: Action) -> Action {
        a.lowered_by(self.pair)
    }
}
