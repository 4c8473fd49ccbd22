// The numbers of a design. An outsize design has 0 for each, the numbers of the empty system that it means, and no None:
// whoever reads them need not tell the cases apart.
#[derive(Clone, Copy)]
pub struct Shape {
    pub states: usize,
    pub width: usize,
    pub start: usize,
}

impl Shape {
    pub const OUTSIZE: Shape = Shape {
        states: 0,
        width: 0,
        start: 0,
    };
}
