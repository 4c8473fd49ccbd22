// The tables that are compared. tools/speed/baseline.rs makes the same ones.
use super::draws::Draws;
use super::wanted::Size;
use std::alloc::{AllocError, Global};
use systems::rows::Row;

#[derive(Clone, Copy)]
pub enum Input {
    // two tables that have nothing to do with each other
    Random,
    // a random table, and the same with its states and rows in another order
    Renumbered,
    // a chain of states, twice: it takes as many rounds as there are states
    Chain,
    // a chain, and the same with its states and rows in another order
    MixedChain,
}

pub const INPUTS: [Input; 4] = [
    Input::Random,
    Input::Renumbered,
    Input::Chain,
    Input::MixedChain,
];

// The rows of two tables of n states each.
#[derive(Drop)]
pub struct Pair {
    pub left: Vec<Row>,
    pub right: Vec<Row>,
}

const ROWS_PER_STATE: u32 = 4;

// Mostly a, so that states differ late. One in sixteen is the prioritised inner action, so that about a fifth of the states
// are not patient.
const CODES: [u16; 16] = [4, 4, 4, 4, 4, 4, 4, 4, 4, 4, 4, 5, 5, 6, 0, 1];

fn random_row(size: Size, draws: &mut Draws) -> Row {
    let n = size.states as usize;
    Row {
        from: draws.below(n) as u32,
        code: CODES[draws.below(CODES.len())],
        to: draws.below(n) as u32,
    }
}

fn random_rows(heap: Global, size: Size, draws: &mut Draws) -> Result<Vec<Row>, AllocError> {
    (0..ROWS_PER_STATE * size.states)
        .map(|_| random_row(size, draws))
        .collect(heap)
}

// Each state leads to the next, by four actions.
fn chain_rows(heap: Global, size: Size) -> Result<Vec<Row>, AllocError> {
    let steps = size.states - 1;
    (0..ROWS_PER_STATE * size.states)
        .map(|i| Row {
            from: i % steps,
            code: 4 + (i / steps % 4) as u16,
            to: i % steps + 1,
        })
        .collect(heap)
}

fn shuffled_names(heap: Global, size: Size, draws: &mut Draws) -> Result<Vec<u32>, AllocError> {
    let mut names = (0..size.states).collect::<Vec<u32>>(heap)?;
    draws.shuffle(&mut names);
    Ok(names)
}

fn renamed(names: &[u32], s: u32) -> u32 {
    names.get(s as usize).copied().unwrap_or(s)
}

// The same table with its states and rows in another order.
fn renumbered(
    heap: Global,
    size: Size,
    rows: &[Row],
    draws: &mut Draws,
) -> Result<Vec<Row>, AllocError> {
    let names = shuffled_names(heap, size, draws)?;
    let mut others = rows
        .iter()
        .map(|row| Row {
            from: renamed(&names, row.from),
            code: row.code,
            to: renamed(&names, row.to),
        })
        .collect::<Vec<Row>>(heap)?;
    draws.shuffle(&mut others);
    Ok(others)
}

impl Input {
    pub fn name(self) -> &'static str {
        match self {
            Input::Random => "random",
            Input::Renumbered => "renumbered",
            Input::Chain => "chain",
            Input::MixedChain => "mixed chain",
        }
    }

    pub fn pair(self, heap: Global, size: Size) -> Result<Pair, AllocError> {
        let mut draws = Draws::new(1);
        let left = match self {
            Input::Random | Input::Renumbered => random_rows(heap, size, &mut draws)?,
            Input::Chain | Input::MixedChain => chain_rows(heap, size)?,
        };
        let right = match self {
            Input::Random => random_rows(heap, size, &mut draws)?,
            Input::Chain => chain_rows(heap, size)?,
            Input::Renumbered | Input::MixedChain => { renumbered(heap, size, &left, &mut draws)? }
        };
        Ok(Pair { left, right })
    }
}
