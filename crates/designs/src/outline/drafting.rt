ghost use Rattle.std.specs.Prelude.{◌≡◌, IfOk};
ghost use Rattle.designs.specs.Operations.{forms_in};
ghost use Rattle.designs.specs.Nodes.{forms};

use super::super::entry::Entry;
use super::super::node::Node;
use super::super::reading::operation_or_nil;
use super::super::shaping::shape_of;
use super::Outline;
use std::alloc::{AllocError, Global};

impl Outline {
    // The operations are those of the nodes, faulty ones being nil.
    pub fn of(heap: Global, nodes: &[Node]) -> Result<Outline, AllocError>
        ensures { IfOk result (λ x. forms_in x.entries.items ≡ forms nodes.now) }
    {
        let mut entries = Vec::new(heap);
        for (i, node) in nodes.iter().enumerate() {
            let operation = operation_or_nil(i, *node);
            let shape = shape_of(operation, entries.as_slice());
            entries.push(Entry { operation, shape })?;
        }
        Ok(Outline { entries })
    }
}
