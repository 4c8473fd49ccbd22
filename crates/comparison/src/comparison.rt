use progress::Progress;
use std::marker::PhantomData;

// A comparison under the layer Y that is not settled. The cells are handed in at each call.
#[derive(Drop)]
pub struct Open<Y> {
    progress: Progress,
    layer: PhantomData<Y>,
}

// A comparison whose last sweep wrote no cell. Only such a one can be asked for a verdict.
#[derive(Drop)]
pub struct Settled<Y> {
    progress: Progress,
    layer: PhantomData<Y>,
}

// What a sweep makes of an open comparison: both are outcomes, and neither a failure as the words of Result would have it.
#[derive(Drop)]
pub enum Step<Y> {
    Again(Open<Y>),
    Done(Settled<Y>),
}

#[derive(Clone, Copy, PartialEq, Eq, Debug)]
pub enum Refusal {
    Outsize,
    FewCells,
    OtherSizes,
    TooManySweeps,
    NoSuchState,
}

// The states are equal, or a round struck their pair: neither is a failure or the lack of an answer, as the words of Option
// and Result would have it.
#[derive(Clone, Copy, PartialEq, Eq, Debug)]
pub enum Verdict {
    Equal,
    Different(u32),
}

mod asked;
mod begin;
mod check;
mod numbers;
mod progress;
mod sweep;

pub use check::check_begin;
