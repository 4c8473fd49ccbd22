// The worked examples of designs with priorities, as theorems. Read specs/: Examples, Claims, Meanings. The function computes
// nothing but their number: it carries the theorems on its contract.
#![tactic(auto)]

ghost use Rattle.std.specs.Prelude.{◌≡◌, length};
ghost use Rattle.std.specs.List.{flat_map, AllByRecursion};
ghost use Rattle.worked_examples.specs.Claims.{Holds, terms_of};
ghost use Rattle.worked_examples.specs.Examples.{examples};
ghost use Rattle.worked_examples.specs.Meanings.{LawfulTerm, MeaningsFollowRules};

// Every claim of the list holds, and the terms in it are lawful; and of every lawful term the meaning follows the rules.
pub fn worked_examples_hold() -> usize
    ensures count { result ≡ length examples }
    ensures hold { AllByRecursion Holds examples }
    ensures lawful { AllByRecursion LawfulTerm (flat_map terms_of examples) }
    ensures rules { MeaningsFollowRules }
{
    10
}
