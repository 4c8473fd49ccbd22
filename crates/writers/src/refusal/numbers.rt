ghost use Rattle.std.specs.Prelude.{◌≡◌};
ghost use Rattle.writers.specs.Writes.{number as number_of};

use super::WriteRefusal;

impl WriteRefusal {
    pub fn number(self) -> u8
        ensures { result ≡ number_of self }
    {
        match self {
            WriteRefusal::Comparison(refusal) => refusal.number(),
            WriteRefusal::OtherVerdict => 20,
            WriteRefusal::NoMove => 13,
            WriteRefusal::FewRows => 21,
        }
    }
}
