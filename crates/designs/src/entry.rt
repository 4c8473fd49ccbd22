use super::operation::Operation;
use super::shape::Shape;

// A node worked out: what it is, and the numbers of its design.
#[derive(Clone, Copy)]
pub struct Entry {
    pub operation: Operation,
    pub shape: Shape,
}
