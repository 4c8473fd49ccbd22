ghost use Rattle.std.specs.Prelude.{◌≡◌};
ghost use Rattle.writers.specs.declared.refusal.WriteRefusal.TheVariants.{Comparison};

use comparison::comparison::Refusal;

// Why no sheet is written.
#[derive(Clone, Copy, PartialEq, Eq, Debug)]
pub enum WriteRefusal {
    Comparison(Refusal),
    OtherVerdict,
    NoMove,
    FewRows,
}

impl From<Refusal> for WriteRefusal {
    ghost from_gives = { λ e r. r ≡ Comparison e };

    fn from(e: Refusal) -> WriteRefusal {
        WriteRefusal::Comparison(e)
    }
}

mod numbers;
