ghost use Rattle.std.specs.Prelude.{◌≡◌, ℕ, ◌+◌, ◌*◌, ◌/◌, ◌<◌, true, false, ◌&&◌, ◌||◌, length, ◌==◌, MatchOption};
ghost use Rattle.sheets.specs.Bitmaps.{bit_at, within, pair_bit};

use super::PairSet;
use answers::held::Held;
use systems::system::System;

fn is_set(words: &[u64], i: usize) -> bool
    requires { i / 64 < length words.now }
    ensures { result ≡ bit_at words.now i }
{
    (words[i / 64] >> (i % 64)) % 2 == 1
}

fn set_bit(words: &mut [u64], i: usize)
    requires { i / 64 < length words.old }
    ensures { (k : ℕ) → bit_at words.new k ≡ (bit_at words.old k || i == k) }
{
    words[i / 64] |= 1 << (i % 64);
}

impl PairSet {
    // No pair yet, of states of the two systems.
    pub(crate) fn new<S: System, T: System>(left: &S, right: &T) -> PairSet
        ensures sizes { (result.n1 ≡ (S.System.meaning left.now).n) × (result.n2 ≡ (T.System.meaning right.now).n) }
        ensures none { (k : ℕ) → bit_at result.words k ≡ false }
    {
        PairSet {
            n1: left.states(),
            n2: right.states(),
            words: [0; 16384],
        }
    }

    // The bit of the pair, if there are such states.
    fn place(&self, x: usize, y: usize) -> Option<usize>
        ensures { MatchOption result (within self.now.n1 self.now.n2 x y ≡ false) (λ i. (within self.now.n1 self.now.n2 x y ≡ true) × (i ≡ x * self.now.n2 + y) × (i / 64 < 16384)) }
    {
        if x < self.n1 && y < self.n2 {
            Some(x * self.n2 + y)
        } else {
            None
        }
    }

    // Adds the pair, if there are such states.
    pub(crate) fn insert(&mut self, x: usize, y: usize)
        ensures sizes { (self.new.n1 ≡ self.old.n1) × (self.new.n2 ≡ self.old.n2) }
        ensures pairs { (a b : ℕ) → pair_bit self.old.n1 self.old.n2 self.new.words a b ≡ (pair_bit self.old.n1 self.old.n2 self.old.words a b || (within self.old.n1 self.old.n2 a b && (x == a && y == b))) }
    {
        if let Some(i) = self.place(x, y) {
            set_bit(&mut self.words, i);
        }
    }
}

impl Held for PairSet {
    ghost holds = { λ p. pair_bit p.n1 p.n2 p.words };

    fn has(&self, left: usize, right: usize) -> bool {
        self.place(left, right)
            .is_some_and(|i| is_set(&self.words, i))
    }
}
