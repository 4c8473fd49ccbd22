// The questions that the nodes of a design have to pass.
ghost use Rattle.std.specs.Prelude.{◌≡◌, ◌-◌, true, length, MatchResult};
ghost use Rattle.designs.specs.Tables.{design};
ghost use Rattle.designs.specs.Shapes.{ShapeOf};
ghost use Rattle.designs.specs.Nodes.{forms, countable};
ghost use Rattle.designs.specs.Checks.{Faultless, FirstFault, Passed, Refused};

use super::entry::Entry;
use super::node::{MOST_NODES, Node};
use super::operation::Operation;
use super::reading::operation_at;
use super::refusal::NodeRefusal;
use super::shape::Shape;
use super::shaping::shape_of;

// The shape of the last node, if none has a fault.
fn last_shape(nodes: &[Node]) -> Result<Shape, NodeRefusal>
    requires { countable nodes.now ≡ true }
    ensures { MatchResult result (λ x. Faultless nodes.now (length nodes.now) × ShapeOf (design (forms nodes.now) (length nodes.now - 1)) x) (λ e. FirstFault nodes.now e) }
{
    let blank = Entry {
        operation: Operation::Nil,
        shape: Shape::OUTSIZE,
    };
    // An array in place of a Vec: the check allocates nothing.
    let mut entries = [blank; MOST_NODES];
    for (i, node) in nodes.iter().enumerate() {
        let operation = operation_at(i, *node)?;
        let shape = shape_of(operation, &entries[..i]);
        entries[i] = Entry { operation, shape };
    }
    Ok(entries[nodes.len() - 1].shape)
}

pub fn check_nodes(nodes: &[Node]) -> Result<(), NodeRefusal>
    ensures { MatchResult result (λ _. Passed nodes.now) (λ e. Refused nodes.now e) }
{
    let many = nodes.len();
    if many < 1 || many > MOST_NODES {
        return Err(NodeRefusal::Count);
    }
    let last = last_shape(nodes)?;
    if last.states == 0 {
        Err(NodeRefusal::Outsize(many - 1))
    } else {
        Ok(())
    }
}
