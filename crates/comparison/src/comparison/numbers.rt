ghost use Rattle.std.specs.Prelude.{◌≡◌};
ghost use Rattle.comparison.specs.Comparisons.{number as number_of};

use super::Refusal;

impl Refusal {
    pub fn number(self) -> u8
        ensures { result ≡ number_of self }
    {
        match self {
            Refusal::Outsize => 10,
            Refusal::FewCells => 11,
            Refusal::OtherSizes => 12,
            Refusal::TooManySweeps => 13,
            Refusal::NoSuchState => 19,
        }
    }
}
