ghost use Rattle.std.specs.Prelude.{◌≡◌};
ghost use Rattle.book.specs.declared.fault.BookFault.TheVariants.{Sheet};

use certificates::fault::SheetFault;

// Why the book refuses a call. Each names the socket as it was given, but for the refusal of a sheet, which is handed on whole.
#[derive(Clone, Copy, PartialEq, Eq, Debug)]
pub enum BookFault {
    NoSocket(usize),
    NoState(usize),
    Occupied(usize),
    Vacant(usize),
    ChangeOpen(usize),
    Full(usize),
    NoChange(usize),
    Sheet(SheetFault),
}

impl From<SheetFault> for BookFault {
    ghost from_gives = { λ e r. r ≡ Sheet e };

    fn from(e: SheetFault) -> BookFault {
        BookFault::Sheet(e)
    }
}

mod reports;
