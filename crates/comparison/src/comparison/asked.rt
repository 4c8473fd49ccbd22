ghost use Rattle.std.specs.Prelude.{◌≡◌, ◌+◌, ◌*◌, ◌≤◌, Ok};
ghost use Rattle.theory.specs.Layers.{shown};
ghost use Rattle.refinement.specs.Runs.{VerdictLaw};
ghost use Rattle.comparison.specs.declared.comparison.Verdict.TheVariants.{Equal, Different};
ghost use Rattle.comparison.specs.Comparisons.{verdict_of, verdict_answer};

use super::{Refusal, Settled, Verdict};
use layers::layer::Layer;
use systems::system::System;

impl Verdict {
    fn of(cell: u32) -> Verdict
        ensures { result ≡ verdict_of cell }
    {
        if cell == 0 {
            Verdict::Equal
        } else {
            Verdict::Different(cell)
        }
    }
}

impl<Y: Layer> Settled<Y> {
    // How many sweeps were made, the last included, which wrote nothing.
    pub fn sweeps(&self) -> u32
        ensures value { result ≡ self.now.progress.made }
        ensures bound { result ≤ self.now.progress.n1 * self.now.progress.n2 + 1 }
    {
        self.progress.made
    }

    // Whether the states are equal, or the round that struck them. Over every run that led to this comparison and these
    // cells, that is the truth about the two systems.
    pub fn verdict<S: System, T: System>(
        &self,
        left: &S,
        right: &T,
        cells: &[u32],
        s: usize,
        t: usize,
    ) -> Result<Verdict, Refusal>
        ensures answer { result ≡ verdict_answer self.now.progress (S.System.meaning left.now).n (T.System.meaning right.now).n cells.now s t }
        ensures law { VerdictLaw (Ok Equal) (λ v. Ok (Different v)) (shown Y.Layer.rule (S.System.meaning left.now)) (shown Y.Layer.rule (T.System.meaning right.now)) self.now.progress.n1 self.now.progress.n2 self.now.progress.made cells.now s t result }
    {
        self.progress.check_verdict(left, right, cells.len(), s, t)?;
        Ok(Verdict::of(cells[s * right.states() + t]))
    }
}
