ghost use Rattle.std.specs.Prelude.{◌≤◌};

// A set of pairs of states of two systems, as a bitmap: the checks allocate nothing.
#[derive(Drop)]
pub struct PairSet {
    n1: usize,
    n2: usize,
    words: [u64; 16384],
    ghost few: { n1 ≤ 1024 },
    ghost few2: { n2 ≤ 1024 },
}

mod bits;
