ghost use Rattle.std.specs.Prelude.{◌≡◌};
ghost use Rattle.comparison.specs.Wraps.{together_wrapped};

use answers::held::Held;

// The pairs that were kept when the round began: their cells are zero, or the round wrote its number over the zeros. Which
// others are in the set doesn't matter, since a transition leads to a state, so the cell's number may wrap.
#[derive(Clone, Copy)]
pub(crate) struct Unstruck<'a> {
    pub(crate) cells: &'a [u32],
    pub(crate) n2: usize,
    pub(crate) round: u32,
}

impl Held for Unstruck<'_> {
    ghost holds = { λ p. together_wrapped p.cells.now p.round p.n2 };

    fn has(&self, left: usize, right: usize) -> bool {
        let place = left.wrapping_mul(self.n2).wrapping_add(right);
        let cell = self.cells.get(place).copied().unwrap_or(0);
        cell == 0 || cell == self.round
    }
}
