ghost use Rattle.std.specs.Prelude.{◌≡◌, ℕ, ◌≤◌, true, ◌&&◌, if◌then◌else◌, Some, None, nat_le};
ghost use Rattle.std.specs.Option.{option_map};
ghost use Rattle.theory.specs.Codes.{lawful_channel};

// Moves the actions of one class (0 unprioritised, 1 prioritised) from one channel to another.
#[derive(Clone, Copy, PartialEq, Eq, Debug)]
pub struct Renaming {
    // A plain number, as it stands in an action's code.
    class: u8,
    from: u8,
    to: u8,
    ghost class_lawful: { class ≤ 1 },
    ghost from_lawful: { lawful_channel from ≡ true },
    ghost to_lawful: { lawful_channel to ≡ true },
}

fn is_channel(c: u64) -> bool
    ensures { result ≡ lawful_channel c }
{
    (1..=60).contains(&c)
}

impl Renaming {
    // `Option`, since nothing is to be said of numbers that are no renaming.
    pub fn new(class: u16, from: u64, to: u64) -> Option<Renaming>
        ensures { option_map {U = ℕ × ℕ × ℕ} (λ x. (x.class, x.from, x.to)) result ≡ (if nat_le class 1 && (lawful_channel from && lawful_channel to) then Some (class, from, to) else None) }
    {
        if class <= 1 && is_channel(from) && is_channel(to) {
            Some(Renaming {
                class: class as u8,
                from: from as u8,
                to: to as u8,
            })
        } else {
            None
        }
    }

    pub fn class(self) -> u8
        ensures { result ≡ self.class }
    {
        self.class
    }

    pub fn from(self) -> u8
        ensures { result ≡ self.from }
    {
        self.from
    }

    pub fn to(self) -> u8
        ensures { result ≡ self.to }
    {
        self.to
    }
}
