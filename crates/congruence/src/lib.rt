// Equality is a congruence of the seven operators, and so of every expression made of them. The functions compute nothing: each
// carries theorems on its contract.
#![tactic(auto)]

ghost use Rattle.congruence.specs.Congruences.{PrefixCongruence, SumCongruence, ParallelCongruence, RestrictCongruence, RenameCongruence, RaiseCongruence, LowerCongruence};
ghost use Rattle.congruence.specs.Expressions.{Exchange};

pub fn equality_is_a_congruence() -> u8
    ensures prefix { PrefixCongruence }
    ensures sum { SumCongruence }
    ensures parallel { ParallelCongruence }
    ensures restriction { RestrictCongruence }
    ensures renaming { RenameCongruence }
    ensures raising { RaiseCongruence }
    ensures lowering { LowerCongruence }
{
    0
}

pub fn equal_states_are_exchangeable() -> u8
    ensures { Exchange }
{
    0
}
