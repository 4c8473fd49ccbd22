ghost use Rattle.std.specs.Prelude.{◌<◌};

// A linear congruential generator, of which the high bits are used.
#[derive(Drop)]
pub struct Draws {
    state: u64,
}

impl Draws {
    pub fn new(seed: u64) -> Draws {
        Draws { state: seed }
    }

    pub(crate) fn below(&mut self, n: usize) -> usize
        requires { 0 < n }
        ensures { result < n }
    {
        self.state = self
            .state
            .wrapping_mul(6364136223846793005)
            .wrapping_add(1442695040888963407);
        (self.state >> 33) as usize % n
    }

    // Puts the items into any order: each, by its place, is swapped with one drawn from those up to it.
    pub fn shuffle<T>(&mut self, items: &mut [T]) {
        for i in 0..items.len() {
            let j = self.below(i + 1);
            items.swap(i, j);
        }
    }
}
