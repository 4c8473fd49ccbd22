// A design has at most so many nodes.
pub const MOST_NODES: usize = 256;

// A node of a written design as it is handed in. Its children are earlier nodes, by number, and the last node is the design.
#[derive(Clone, Copy, PartialEq, Eq, Debug)]
pub struct Node {
    pub kind: u8,
    pub code: u16,
    pub left: u16,
    pub right: u16,
    pub first: u64,
    pub second: u64,
}
