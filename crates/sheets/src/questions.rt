ghost use Rattle.std.specs.Prelude.{◌≡◌, if◌then◌else◌, Some, None};
ghost use Rattle.theory.specs.Faults.{passed};
ghost use Rattle.certificates.specs.declared.fault.SheetFault.TheVariants.{RowCount, NotAsked};
ghost use Rattle.certificates.specs.Faults.{counted};

use certificates::fault::SheetFault;
use systems::limits::MOST_STATES;

const MOST_ROWS: usize = MOST_STATES * MOST_STATES;

// A sheet has at least one row, and at most as many as there are pairs of states of two systems.
pub(crate) fn check_count(rows: usize) -> Result<(), SheetFault>
    ensures { result ≡ passed (if counted rows then None else Some RowCount) }
{
    if (1..=MOST_ROWS).contains(&rows) {
        Ok(())
    } else {
        Err(SheetFault::RowCount)
    }
}

// The pair that is asked for is in its place.
pub(crate) fn check_asked(asked: bool) -> Result<(), SheetFault>
    ensures { result ≡ passed (if asked then None else Some NotAsked) }
{
    if asked {
        Ok(())
    } else {
        Err(SheetFault::NotAsked)
    }
}
