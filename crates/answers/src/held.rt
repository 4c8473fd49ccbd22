ghost use Rattle.std.specs.Prelude.{◌≡◌, ℕ, Bool, not};

// A set of pairs of states.
pub trait Held {
    ghost holds: { Self → ℕ → ℕ → Bool };

    fn has(&self, left: usize, right: usize) -> bool
        ensures { result ≡ holds self.now left right };
}

// The set as it is seen from the right states' side.
#[derive_where(Clone, Copy)]
pub struct Flipped<'a, P> {
    pairs: &'a P,
}

impl<'a, P> Flipped<'a, P> {
    pub fn of(pairs: &'a P) -> Flipped<'a, P>
        ensures { result.pairs.now ≡ pairs.now }
    {
        Flipped { pairs }
    }
}

impl<'a, P: Held> Held for Flipped<'a, P> {
    ghost holds = { λ p x y. P.Held.holds p.pairs.now y x };

    fn has(&self, left: usize, right: usize) -> bool {
        self.pairs.has(right, left)
    }
}

// The pairs that are not in the set.
#[derive_where(Clone, Copy)]
pub struct Outside<'a, P> {
    pairs: &'a P,
}

impl<'a, P> Outside<'a, P> {
    pub fn of(pairs: &'a P) -> Outside<'a, P>
        ensures { result.pairs.now ≡ pairs.now }
    {
        Outside { pairs }
    }
}

impl<'a, P: Held> Held for Outside<'a, P> {
    ghost holds = { λ p x y. not (P.Held.holds p.pairs.now x y) };

    fn has(&self, left: usize, right: usize) -> bool {
        !self.pairs.has(left, right)
    }
}
