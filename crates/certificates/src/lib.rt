// Sheets of evidence, which are certificates: an equal sheet lists a bisimulation, a different sheet lists pairs with a
// transition each that only pairs listed before could answer.
#![tactic(auto)]

pub mod fault;
pub mod rows;
pub mod side;

ghost use Rattle.certificates.specs.DifferentSheets.{DifferentSheets};
ghost use Rattle.certificates.specs.EqualSheets.{EqualSheets};

// Two states have an accepted equal sheet exactly if they are bisimilar, and an accepted different sheet exactly if they are
// not. The function only carries the theorem in its contract.
pub fn sheets_decide() -> u8
    ensures equal { EqualSheets }
    ensures different { DifferentSheets }
{
    0
}
