use designs::refusal::NodeRefusal;
use files::refusal::FileRefusal;

// Why two designs in a file cannot be compared.
#[derive(Clone, Copy)]
pub enum FileFault {
    File(FileRefusal),
    First(NodeRefusal),
    Second(NodeRefusal),
    FewCells,
}

// The designs are equal, with the sweeps made and the number of equal pairs of states; or they are different, with the
// sweeps made and the round that struck the starts; or they cannot be compared, which is an answer to print like the others
// and no Err.
#[derive(Clone, Copy)]
pub enum Answer {
    Equal(u32, usize),
    Different(u32, u32),
    Refused(FileFault),
}
