ghost use Rattle.files.specs.Reads.{Read};

use super::fields::nodes_of;
use super::layout::layout_of;
use super::refusal::{DesignPair, ReadFault};
use std::alloc::Global;

// The nodes of both designs in a file, or why it is none.
pub fn read_designs(heap: Global, bytes: &[u8]) -> Result<DesignPair, ReadFault>
    ensures { Read bytes.now result }
{
    let layout = layout_of(bytes)?;
    let first = nodes_of(heap, layout.first)?;
    let second = nodes_of(heap, layout.second)?;
    Ok(DesignPair { first, second })
}
