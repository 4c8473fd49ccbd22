// A table as a system: the transitions of a state are the rows from it, in order.
use super::listed::Listed;

#[derive(Drop)]
pub struct Table {
    listed: Listed,
}

mod lists;
mod reads;
