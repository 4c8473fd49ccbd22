// What the comparer finds out about the table: sheets that it writes for two of its states.
use anyhow::anyhow;
use certificates::fault::SheetFault;
use certificates::rows::{DifferentRow, EqualRow};
use comparison::comparison::Settled;
use layers::standing::Standing;
use sheets::different::check_different;
use sheets::equal::check_equal;
use std::alloc::Global;
use std::io;
use systems::table::Table;
use verdicts::settling::settle;
use writers::different::write_different;
use writers::equal::write_equal;
use writers::refusal::WriteRefusal;

// The pairs of the table's states: no sheet that is written has more rows.
const PAIRS: usize = 121;

// The table compared with itself, to the end.
#[derive(Drop)]
pub struct Found<'a> {
    table: &'a Table,
    cells: Vec<u32>,
    settled: Settled<Standing>,
}

// A row of one of the two kinds of sheets.
pub trait SheetRow: Copy {
    const KIND: &'static str;

    const BLANK: Self;

    fn print(self, rt: &impl Print) -> io::Result<()>;

    fn write(
        found: &Found<'_>,
        s: usize,
        t: usize,
        rows: &mut [Self],
    ) -> Result<usize, WriteRefusal>;

    fn check(table: &Table, s: usize, t: usize, rows: &[Self]) -> Result<(), SheetFault>;
}

impl SheetRow for EqualRow {
    const KIND: &'static str = "equal";

    const BLANK: EqualRow = EqualRow { left: 0, right: 0 };

    fn print(self, rt: &impl Print) -> io::Result<()> {
        print!(rt; " {},{}", self.left, self.right)
    }

    fn write(
        found: &Found<'_>,
        s: usize,
        t: usize,
        rows: &mut [EqualRow],
    ) -> Result<usize, WriteRefusal> {
        let table = found.table;
        write_equal(&found.settled, table, table, &found.cells, s, t, rows)
    }

    fn check(table: &Table, s: usize, t: usize, rows: &[EqualRow]) -> Result<(), SheetFault> {
        check_equal::<Standing, Table, Table>(table, table, rows, s, t)
    }
}

impl SheetRow for DifferentRow {
    const KIND: &'static str = "different";

    const BLANK: DifferentRow = DifferentRow {
        left: 0,
        right: 0,
        side: 0,
        k: 0,
    };

    fn print(self, rt: &impl Print) -> io::Result<()> {
        print!(rt; " {},{},{},{}", self.left, self.right, self.side, self.k)
    }

    fn write(
        found: &Found<'_>,
        s: usize,
        t: usize,
        rows: &mut [DifferentRow],
    ) -> Result<usize, WriteRefusal> {
        let table = found.table;
        write_different(&found.settled, table, table, &found.cells, s, t, rows)
    }

    fn check(table: &Table, s: usize, t: usize, rows: &[DifferentRow]) -> Result<(), SheetFault> {
        check_different::<Standing, Table, Table>(table, table, rows, s, t)
    }
}

impl<'a> Found<'a> {
    pub fn of(heap: Global, table: &'a Table) -> anyhow::Result<Found<'a>> {
        let mut cells = vec![in heap; 0u32; PAIRS]?;
        let settled = settle::<Standing, Table, Table>(table, table, &mut cells).map_err(
            |_| anyhow!("the table cannot be compared"),
        )?;
        Ok(Found {
            table,
            cells,
            settled,
        })
    }

    // Has a sheet of two states written, prints it, and checks it as anybody can. The answer is the sheet, which has no rows if
    // none is written.
    pub fn show<R: SheetRow>(
        &self,
        rt: &HostRuntime,
        s: usize,
        t: usize,
    ) -> anyhow::Result<Vec<R>> {
        let mut rows = vec![in rt.alloc(); R::BLANK; PAIRS]?;
        match R::write(self, s, t, &mut rows) {
            Err(refusal) => {
                println!(rt;
                    "  no {} sheet is written: refused {}",
                    R::KIND,
                    refusal.number()
                )?;
                rows.clear();
            }
            Ok(count) => {
                rows.truncate(count);
                print!(rt; "  {} sheet:", R::KIND)?;
                for row in &rows {
                    row.print(rt)?;
                }
                println!(rt)?;
                match R::check(self.table, s, t, &rows) {
                    Ok(()) => println!(rt; "  it is accepted for {s} and {t}")?,
                    Err(_) => println!(rt; "  it is refused")?,
                }
            }
        }
        Ok(rows)
    }
}
