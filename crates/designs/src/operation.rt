use actions::action::Action;
use actions::pair::ChannelPair;
use actions::renaming::Renaming;

// What a node is: nil, or an operator with its lawful parameters over earlier nodes.
#[derive(Clone, Copy)]
pub enum Operation {
    Nil,
    Prefix(Action, usize),
    Sum(usize, usize),
    Parallel(usize, usize),
    Restrict(ChannelPair, usize),
    Rename(Renaming, usize),
    Raise(ChannelPair, usize),
    Lower(ChannelPair, usize),
}
