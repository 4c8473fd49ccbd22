ghost use Rattle.std.specs.Prelude.{◌≡◌};
ghost use Rattle.files.specs.Refusals.{number as number_of};
ghost use Rattle.files.specs.declared.refusal.ReadFault.TheVariants.{File, Memory};

use designs::node::Node;
use std::alloc::AllocError;

// Which question a file fails: its mark, its version, or whether its length is that of the nodes it counts.
#[derive(Clone, Copy, PartialEq, Eq, Debug)]
pub enum FileRefusal {
    Mark,
    Version,
    Length,
}

impl FileRefusal {
    // The number of the question that failed.
    pub fn number(self) -> u8
        ensures { result ≡ number_of self }
    {
        match self {
            FileRefusal::Mark => 28,
            FileRefusal::Version => 29,
            FileRefusal::Length => 30,
        }
    }
}

// Why a file gives no nodes.
#[derive(Drop)]
pub enum ReadFault {
    File(FileRefusal),
    Memory(AllocError),
}

// The nodes of two designs.
#[derive(Drop)]
pub struct DesignPair {
    pub first: Vec<Node>,
    pub second: Vec<Node>,
}

impl From<FileRefusal> for ReadFault {
    ghost from_gives = { λ e r. r ≡ File e };

    fn from(e: FileRefusal) -> ReadFault {
        ReadFault::File(e)
    }
}

impl From<AllocError> for ReadFault {
    ghost from_gives = { λ e r. r ≡ Memory e };

    fn from(e: AllocError) -> ReadFault {
        ReadFault::Memory(e)
    }
}
