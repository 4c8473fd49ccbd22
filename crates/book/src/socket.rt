// A change that is open: the state proposed, the number of the change, and whether a certificate for it was accepted.
#[derive(Clone, Copy)]
pub struct Change {
    pub state: usize,
    pub number: u16,
    pub proved: bool,
}

// What fills a socket: the state that it was filled with, the state that it holds now, and the change that is open, if one is.
#[derive(Clone, Copy)]
pub struct Holding {
    pub first: usize,
    pub current: usize,
    pub change: Option<Change>,
}
