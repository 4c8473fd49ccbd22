use certificates::rows::EqualRow;

// A call on the book as data, with its arguments. A slip is given by its socket and the number of its change.
#[derive(Drop)]
pub enum Request {
    Enter {
        socket: usize,
        state: usize,
    },
    Propose {
        socket: usize,
        state: usize,
    },
    Prove {
        socket: usize,
        number: u16,
        rows: Vec<EqualRow>,
    },
    Close {
        socket: usize,
        number: u16,
    },
}
