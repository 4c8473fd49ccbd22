ghost use Rattle.std.specs.Prelude.{◌≡◌, ◌<◌, MatchOption};
ghost use Rattle.certificates.specs.Faults.{side_number};

// Which of two states a transition is of.
#[derive(Clone, Copy, PartialEq, Eq, Debug)]
pub enum Side {
    Left,
    Right,
}

impl Side {
    pub fn number(self) -> u8
        ensures { result ≡ side_number self }
    {
        match self {
            Side::Left => 0,
            Side::Right => 1,
        }
    }

    // Of a number that is none there is nothing to say, so an Option as with char::from_u32.
    pub fn from_number(number: u8) -> Option<Side>
        ensures { MatchOption result (1 < number) (λ side. side_number side ≡ number) }
    {
        match number {
            0 => Some(Side::Left),
            1 => Some(Side::Right),
            _ => None,
        }
    }
}
