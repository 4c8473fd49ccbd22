ghost use Rattle.std.specs.Prelude.{◌≡◌};

use super::Slip;

impl Slip {
    // Lets the slip go, which only the book's own code can do.
    pub(super) fn spend(self) {
        let Slip {
            socket: _,
            number: _,
        } = self;
    }

    // The socket that the change is open at.
    pub fn socket(&self) -> usize
        ensures { result ≡ self.now.socket }
    {
        self.socket
    }

    // The number of the change.
    pub fn number(&self) -> u16
        ensures { result ≡ self.now.number }
    {
        self.number
    }
}
