ghost use Rattle.std.specs.Prelude.{◌+◌, ◌*◌, ◌≤◌};

// How many states the two systems of a comparison have, and how many sweeps were made.
#[derive(Clone, Copy)]
pub struct Progress {
    pub(crate) n1: usize,
    pub(crate) n2: usize,
    pub(crate) made: u32,
    ghost few: { n1 * n2 ≤ 1048576 },
    ghost bound: { made ≤ n1 * n2 + 1 },
}
