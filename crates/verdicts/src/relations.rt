// Equality is stated with relations that are tests. A relation of any other kind that is a bisimulation serves as well. The
// statement is too large a type for a contract, so a ghost member carries it.
ghost use Rattle.refinement.specs.Rounds.{AnyRelation};
ghost use Rattle.refinement.proofs.Rounds.{any_relation};

pub trait Serves {
    ghost serves: { AnyRelation };
}

#[derive(Clone, Copy)]
pub struct Relations;

impl Serves for Relations {
    ghost serves = { any_relation };
}
