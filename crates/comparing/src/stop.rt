ghost use Rattle.std.specs.Prelude.{◌≡◌};
ghost use Rattle.comparing.specs.Comparisons.{stop_of};
ghost use Rattle.comparing.specs.declared.stop.Stop.TheVariants.{Fault, Memory};

use super::answer::FileFault;
use files::refusal::ReadFault;
use std::alloc::AllocError;

// Why no comparison is made.
#[derive(Drop)]
pub(crate) enum Stop {
    Fault(FileFault),
    Memory(AllocError),
}

impl From<FileFault> for Stop {
    ghost from_gives = { λ e r. r ≡ Fault e };

    fn from(e: FileFault) -> Stop {
        Stop::Fault(e)
    }
}

impl From<AllocError> for Stop {
    ghost from_gives = { λ e r. r ≡ Memory e };

    fn from(e: AllocError) -> Stop {
        Stop::Memory(e)
    }
}

impl From<ReadFault> for Stop {
    ghost from_gives = { λ e r. r ≡ stop_of e };

    fn from(e: ReadFault) -> Stop {
        match e {
            ReadFault::File(f) => Stop::Fault(FileFault::File(f)),
            ReadFault::Memory(e) => Stop::Memory(e),
        }
    }
}
