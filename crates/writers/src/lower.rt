ghost use Rattle.std.specs.Prelude.{◌≡◌, ◌&&◌, nat_lt};
ghost use Rattle.certificates.specs.Listings.{before};
ghost use Rattle.writers.specs.Writes.{cell_of};

use answers::held::Held;
use comparison::pairs::cell_of_pair;

// The pairs that rounds below a given one struck.
#[derive(Drop)]
pub(crate) struct Lower<'a> {
    pub(crate) cells: &'a [u32],
    pub(crate) n2: usize,
    pub(crate) below: u32,
}

pub(crate) fn is_lower(cell: u32, below: u32) -> bool
    ensures { result ≡ (nat_lt 0 cell && nat_lt cell below) }
{
    cell > 0 && cell < below
}

impl Held for Lower<'_> {
    ghost holds = { λ p. before (cell_of p.cells.now) p.n2 p.below };

    fn has(&self, left: usize, right: usize) -> bool {
        is_lower(cell_of_pair(self.cells, self.n2, left, right), self.below)
    }
}
