// The questions asked of a file.
ghost use Rattle.std.specs.Prelude.{◌≡◌, ◌+◌, ◌*◌, ◌<◌, ◌≤◌, map, drop, length, Some, None, MatchOption, MatchResult};
ghost use Rattle.files.specs.Layouts.{field, node_at, nodes_at, first_nodes, second_nodes};
ghost use Rattle.files.specs.Refusals.{file_fault};

use super::fields::NODE_BYTES;
use super::refusal::FileRefusal;
use designs::node::MOST_NODES;

// The longest file has two designs of the most nodes.
const MOST_BYTES: usize = 9 + 2 * MOST_NODES * NODE_BYTES;

// The nodes of each design, as bytes.
#[derive(Clone, Copy)]
pub(crate) struct Layout<'a> {
    pub first: &'a [[u8; NODE_BYTES]],
    pub second: &'a [[u8; NODE_BYTES]],
}

// A count in two bytes and so many nodes, and the bytes after them.
fn counted(bytes: &[u8]) -> Option<(&[[u8; NODE_BYTES]], &[u8])>
    ensures { MatchOption result (length bytes.now < 2 + 23 * field bytes.now 0 2) (λ p. (2 + 23 * field bytes.now 0 2 ≤ length bytes.now) × (map (λ x. node_at x 0) p.0.now ≡ nodes_at bytes.now 2 (field bytes.now 0 2)) × (p.1.now ≡ drop (2 + 23 * field bytes.now 0 2) bytes.now)) }
{
    let (count, rest) = bytes.split_first_chunk()?;
    let size = NODE_BYTES * u16::from_be_bytes(*count) as usize;
    let (nodes, after) = rest.split_at_checked(size)?;
    Some((nodes.as_chunks().0, after))
}

pub(crate) fn layout_of(bytes: &[u8]) -> Result<Layout<'_>, FileRefusal>
    ensures { MatchResult result (λ c. (file_fault bytes.now ≡ None) × (map (λ x. node_at x 0) c.first.now ≡ first_nodes bytes.now) × (map (λ x. node_at x 0) c.second.now ≡ second_nodes bytes.now)) (λ e. file_fault bytes.now ≡ Some e) }
{
    let rest = bytes.strip_prefix(b"PCD").ok_or(FileRefusal::Mark)?;
    // Version 1, in two bytes.
    let rest = rest.strip_prefix(&[0, 1]).ok_or(FileRefusal::Version)?;
    if bytes.len() > MOST_BYTES {
        return Err(FileRefusal::Length);
    }
    let (first, rest) = counted(rest).ok_or(FileRefusal::Length)?;
    let (second, rest) = counted(rest).ok_or(FileRefusal::Length)?;
    if rest.is_empty() {
        Ok(Layout { first, second })
    } else {
        Err(FileRefusal::Length)
    }
}
