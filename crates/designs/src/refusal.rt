ghost use Rattle.std.specs.Prelude.{◌≡◌};
ghost use Rattle.designs.specs.Refusals.{number as number_of, place as place_of};

// Why nodes are refused: how many they are, or the number of the first node that fails a question.
#[derive(Clone, Copy, PartialEq, Eq, Debug)]
pub enum NodeRefusal {
    Count,
    Kind(usize),
    Children(usize),
    Fields(usize),
    Outsize(usize),
}

impl NodeRefusal {
    // The number of the question that failed.
    pub fn number(self) -> u8
        ensures { result ≡ number_of self }
    {
        match self {
            NodeRefusal::Count => 5,
            NodeRefusal::Kind(_) => 6,
            NodeRefusal::Children(_) => 7,
            NodeRefusal::Fields(_) => 8,
            NodeRefusal::Outsize(_) => 9,
        }
    }

    // The node that it was asked of, 0 if of none.
    pub fn place(self) -> usize
        ensures { result ≡ place_of self }
    {
        match self {
            NodeRefusal::Count => 0,
            NodeRefusal::Kind(i)
            | NodeRefusal::Children(i)
            | NodeRefusal::Fields(i)
            | NodeRefusal::Outsize(i) => i,
        }
    }
}
