ghost use Rattle.std.specs.Prelude.{◌≡◌, ◌+◌, ◌*◌, ◌≤◌, slice_index};

use systems::system::System;

// How many pairs of states the systems have: a comparison wants a cell for each.
pub fn count_pairs<S: System, T: System>(left: &S, right: &T) -> usize
    ensures product { result ≡ (S.System.meaning left.now).n * (T.System.meaning right.now).n }
    ensures bound { result ≤ 1048576 }
{
    left.states() * right.states()
}

// The cell of the pair (x, y), where a row has n2 pairs, or 0 if there is no such cell.
pub fn cell_of_pair(cells: &[u32], n2: usize, x: usize, y: usize) -> u32
    ensures { result ≡ slice_index cells.now (x * n2 + y) }
{
    // A number that is too large for a usize lies past every cell.
    let place = x.saturating_mul(n2).saturating_add(y);
    cells.get(place).copied().unwrap_or(0)
}
