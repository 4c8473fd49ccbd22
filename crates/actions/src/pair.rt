ghost use Rattle.std.specs.Prelude.{◌≡◌, ℕ, ◌<◌, true, ◌&&◌, if◌then◌else◌, Some, None};
ghost use Rattle.std.specs.Option.{option_map};
ghost use Rattle.theory.specs.Codes.{has_channel, lawful_word};

// Two sets of channels, as words in which bit c stands for channel c. Only the bits 1 to 60 may be set.
// Words as they are handed in: a pair is copied, and asked by a shift.
#[derive(Clone, Copy, PartialEq, Eq, Debug)]
pub struct ChannelPair {
    first: u64,
    second: u64,
    ghost first_lawful: { lawful_word first ≡ true },
    ghost second_lawful: { lawful_word second ≡ true },
}

const PAST_CHANNELS: u64 = 1 << 61;

fn is_lawful(word: u64) -> bool
    ensures { result ≡ lawful_word word }
{
    word % 2 == 0 && word < PAST_CHANNELS
}

impl ChannelPair {
    // `Option`, since nothing is to be said of words that are no sets.
    pub fn new(first: u64, second: u64) -> Option<ChannelPair>
        ensures { option_map {U = ℕ × ℕ} (λ p. (p.first, p.second)) result ≡ (if lawful_word first && lawful_word second then Some (first, second) else None) }
    {
        if is_lawful(first) && is_lawful(second) {
            Some(ChannelPair { first, second })
        } else {
            None
        }
    }

    pub fn first(self) -> u64
        ensures { result ≡ self.first }
    {
        self.first
    }

    pub fn second(self) -> u64
        ensures { result ≡ self.second }
    {
        self.second
    }

    // Whether the second set has the channel, or, if not asked of that, the first.
    pub(crate) fn has(self, second: bool, channel: u8) -> bool
        requires { channel < 64 }
        ensures { result ≡ has_channel (if second then self.second else self.first) channel }
    {
        let word = if second { self.second } else { self.first };
        (word >> channel) % 2 == 1
    }
}
