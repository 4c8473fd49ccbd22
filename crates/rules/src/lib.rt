// The rules of the operators, and the theorem that the operators' systems have exactly the transitions that the rules derive.
// Read specs/: Actions, Rules, Derived. The function computes nothing: it carries the theorems on its contract.
#![tactic(auto)]

ghost use Rattle.rules.specs.Derived.{NilDerived, PrefixDerived, SumDerived, ParallelDerived, RestrictionDerived, RenamingDerived, RaisingDerived, LoweringDerived, StandingDerived};

pub fn transitions_are_derived() -> u8
    ensures nil { NilDerived }
    ensures prefix { PrefixDerived }
    ensures sum { SumDerived }
    ensures parallel { ParallelDerived }
    ensures restriction { RestrictionDerived }
    ensures renaming { RenamingDerived }
    ensures raising { RaisingDerived }
    ensures lowering { LoweringDerived }
    ensures standing { StandingDerived }
{
    0
}
