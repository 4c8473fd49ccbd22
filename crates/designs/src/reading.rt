// From nodes to operations.
ghost use Rattle.std.specs.Prelude.{◌≡◌, Some, None, MatchResult};
ghost use Rattle.designs.specs.Operations.{form_of};
ghost use Rattle.designs.specs.Nodes.{said, fault, form};

use super::node::Node;
use super::operation::Operation;
use super::refusal::NodeRefusal;
use actions::action::Action;
use actions::pair::ChannelPair;
use actions::renaming::Renaming;

// What the node at i is, or the first question that it fails.
pub fn operation_at(i: usize, node: Node) -> Result<Operation, NodeRefusal>
    ensures { MatchResult result (λ o. (fault i node ≡ None) × (form_of o ≡ said node)) (λ e. fault i node ≡ Some e) }
{
    let left = node.left as usize;
    let right = node.right as usize;
    let action = Action::from_code(node.code).ok_or(NodeRefusal::Fields(i));
    let pair = ChannelPair::new(node.first, node.second).ok_or(NodeRefusal::Fields(i));
    let renaming = Renaming::new(node.code, node.first, node.second).ok_or(NodeRefusal::Fields(i));
    // The kind is a raw number, as it is handed in.
    match node.kind {
        0 => Ok(Operation::Nil),
        1 if left < i => Ok(Operation::Prefix(action?, left)),
        2 if left < i && right < i => Ok(Operation::Sum(left, right)),
        3 if left < i && right < i => Ok(Operation::Parallel(left, right)),
        4 if left < i => Ok(Operation::Restrict(pair?, left)),
        5 if left < i => Ok(Operation::Rename(renaming?, left)),
        6 if left < i => Ok(Operation::Raise(pair?, left)),
        7 if left < i => Ok(Operation::Lower(pair?, left)),
        1..=7 => Err(NodeRefusal::Children(i)),
        _ => Err(NodeRefusal::Kind(i)),
    }
}

// A faulty node counts as nil.
pub fn operation_or_nil(i: usize, node: Node) -> Operation
    ensures { form_of result ≡ form i node }
{
    operation_at(i, node).unwrap_or(Operation::Nil)
}
