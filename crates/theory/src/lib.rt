// The mathematics that the contracts of the other crates are stated in. Read specs/. The functions here compute nothing: each
// carries theorems on its contract.
#![tactic(auto)]

ghost use Rattle.theory.specs.Equivalence.{LawfulInRange, Reflexive, Symmetric, Transitive};
ghost use Rattle.theory.specs.Standing.{StandingClauses};

// Equality under any layer is an equivalence, on systems whose transitions lead from states to states.
pub fn equality_is_an_equivalence() -> u8
    ensures reflexive { Reflexive }
    ensures symmetric { Symmetric }
    ensures transitive { Transitive }
    ensures range { LawfulInRange }
{
    0
}

// The layer of what stands and the two clauses of the prioritised transitions say the same.
pub fn standing_is_by_clauses() -> u8
    ensures { StandingClauses }
{
    0
}
