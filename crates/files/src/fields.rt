// Nodes in a file. Numbers have the high byte first.
ghost use Rattle.std.specs.Prelude.{◌≡◌, ◌+◌, ◌≤◌, take, drop, map, IfOk};
ghost use Rattle.files.specs.Layouts.{node_at};

use designs::node::Node;
use std::alloc::{AllocError, Global};

pub(crate) const NODE_BYTES: usize = 23;

// The N bytes at a place.
fn part<const N: usize>(bytes: &[u8; NODE_BYTES], at: usize) -> [u8; N]
    requires { at + N ≤ 23 }
    ensures { result ≡ take N (drop at bytes.now) }
{
    *bytes[at..].first_chunk().unwrap()
}

fn node_of(bytes: &[u8; NODE_BYTES]) -> Node
    ensures { result ≡ node_at bytes.now 0 }
{
    Node {
        kind: bytes[0],
        code: u16::from_be_bytes(part(bytes, 1)),
        left: u16::from_be_bytes(part(bytes, 3)),
        right: u16::from_be_bytes(part(bytes, 5)),
        first: u64::from_be_bytes(part(bytes, 7)),
        second: u64::from_be_bytes(part(bytes, 15)),
    }
}

pub(crate) fn nodes_of(heap: Global, nodes: &[[u8; NODE_BYTES]]) -> Result<Vec<Node>, AllocError>
    ensures { IfOk result (λ v. v.items ≡ map (λ x. node_at x 0) nodes.now) }
{
    nodes.iter().map(|bytes| node_of(bytes)).collect(heap)
}
