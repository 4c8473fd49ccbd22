// The story of a few changes: a session part and a mirror part are exchanged for others, with sheets that the comparer wrote.
#![tactic(auto)]

mod evidence;
mod parts;

use anyhow::{Context, anyhow};
use book::book::{Book, Closed, Slip};
use certificates::rows::{DifferentRow, EqualRow};
use evidence::Found;
use parts::{MIRROR, MIRROR_REWRITTEN, MIRROR_THAT_DELIVERS, SESSION, SESSION_REWRITTEN};
use systems::rows::check_rows;
use systems::table::Table;

// A book, the table whose states fill it, and what the comparer found out about the table.
#[derive(Drop)]
struct Story<'a> {
    book: Book,
    table: &'a Table,
    found: Found<'a>,
}

impl Story<'_> {
    fn prove(&mut self, rt: &impl Print, slip: &Slip, sheet: &[EqualRow]) -> anyhow::Result<()> {
        match self.book.prove(self.table, slip, sheet) {
            Ok(()) => println!(rt; "  the change is proved")?,
            Err(fault) => {
                let report = fault.report();
                println!(rt;
                    "  the change is not proved: refused {} at {}",
                    report.number, report.place
                )?
            }
        }
        Ok(())
    }

    fn close(&mut self, rt: &impl Print, slip: Slip) -> anyhow::Result<()> {
        match self.book.close(slip) {
            Closed::Taken => println!(rt; "  the change is taken")?,
            Closed::Dropped => println!(rt; "  the change is dropped")?,
            Closed::Nothing => println!(rt; "  no such change is open")?,
        }
        Ok(())
    }

    // Lets the comparer write a sheet for the change, and puts it before the book.
    fn support(
        &mut self,
        rt: &HostRuntime,
        slip: &Slip,
        current: usize,
        state: usize,
    ) -> anyhow::Result<()> {
        tell(rt, slip, state)?;
        let sheet = self.found.show::<EqualRow>(rt, current, state)?;
        self.prove(rt, slip, &sheet)
    }

    // Proposes another part for a socket, supports the change, and closes it.
    fn exchange(&mut self, rt: &HostRuntime, socket: usize, state: usize) -> anyhow::Result<()> {
        let current = self.book.current(socket).context("the socket is empty")?;
        match self.book.propose(self.table, socket, state) {
            Err(fault) => {
                println!(rt;
                    "state {state} is not proposed for socket {socket}: refused {}",
                    fault.report().number
                )?;
                Ok(())
            }
            Ok(slip) => {
                let supported = self.support(rt, &slip, current, state);
                let closed = self.close(rt, slip);
                supported?;
                closed
            }
        }
    }

    // A slip of another book whose change is not open in this one.
    fn stale_slip(&mut self, rt: &impl Print) -> anyhow::Result<()> {
        let mut other = Book::new();
        enter(rt, &mut other, self.table, 1, SESSION)?;
        let slip = other
            .propose(self.table, 1, SESSION)
            .map_err(|_| anyhow!("not proposed"))?;
        let told = tell(rt, &slip, SESSION);
        let closed = self.close(rt, slip);
        told?;
        closed
    }

    fn print_counts(&self, rt: &impl Print) -> anyhow::Result<()> {
        println!(rt;
            "{} proposed, {} taken, {} dropped",
            self.book.proposed(),
            self.book.taken(),
            self.book.dropped()
        )?;
        Ok(())
    }
}

fn enter(
    rt: &impl Print,
    book: &mut Book,
    table: &Table,
    socket: usize,
    state: usize,
) -> anyhow::Result<()> {
    match book.enter(table, socket, state) {
        Ok(()) => println!(rt; "socket {socket} is filled with state {state}")?,
        Err(fault) => println!(rt;
            "socket {socket} is not filled: refused {}",
            fault.report().number
        )?,
    }
    Ok(())
}

fn tell(rt: &impl Print, slip: &Slip, state: usize) -> anyhow::Result<()> {
    println!(rt;
        "change {}: state {state} is proposed for socket {}",
        slip.number(),
        slip.socket()
    )?;
    Ok(())
}

fn main(rt: HostRuntime) -> anyhow::Result<()> {
    check_rows(parts::STATES, &parts::ROWS).map_err(|_| anyhow!("the rows are no table"))?;
    let table = Table::new(rt.alloc(), parts::STATES, &parts::ROWS)?;
    let mut story = Story {
        book: Book::new(),
        table: &table,
        found: Found::of(rt.alloc(), &table)?,
    };
    enter(&rt, &mut story.book, &table, 1, SESSION)?;
    enter(&rt, &mut story.book, &table, 2, MIRROR)?;
    story.exchange(&rt, 1, SESSION_REWRITTEN)?;
    story.exchange(&rt, 2, MIRROR_THAT_DELIVERS)?;
    let _ = story
        .found
        .show::<DifferentRow>(&rt, MIRROR, MIRROR_THAT_DELIVERS)?;
    story.exchange(&rt, 2, MIRROR_REWRITTEN)?;
    println!(rt; "a slip of another book:")?;
    story.stale_slip(&rt)?;
    story.print_counts(&rt)
}
