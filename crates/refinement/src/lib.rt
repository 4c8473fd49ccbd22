// The rounds that strike pairs of states, and the cells that record them: mathematics, stated in specs/. Each function here
// only carries a theorem in its contract.
#![tactic(auto)]

ghost use Rattle.refinement.specs.Cells.{Told};
ghost use Rattle.refinement.specs.Rounds.{RoundsBound, RoundsExact, RoundsOne, StruckExact};
ghost use Rattle.refinement.specs.Runs.{RunsExact, RunsProgress, RunsSettle, RunsTell};

// The test of a pair says what it should.
pub fn unanswered_is_told() -> u8
    ensures { Told }
{
    0
}

// The refinement has one number of rounds, which is bounded, and it leaves the bisimilar pairs.
pub fn rounds_decide() -> u8
    ensures exact { RoundsExact }
    ensures struck { StruckExact }
    ensures bound { RoundsBound }
    ensures one { RoundsOne }
{
    0
}

// Runs of a comparison go on until they are settled; their cells tell the rounds at any time, and in the end the bisimilar pairs.
pub fn runs_settle() -> u8
    ensures progress { RunsProgress }
    ensures told { RunsTell }
    ensures settled { RunsSettle }
    ensures exact { RunsExact }
{
    0
}
