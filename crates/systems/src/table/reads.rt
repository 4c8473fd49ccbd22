ghost use Rattle.std.specs.Prelude.{◌≡◌, IfOk};
ghost use Rattle.theory.specs.Tables.{table as table_of};
ghost use Rattle.systems.specs.Rows.{triples};
ghost use Rattle.systems.specs.Listings.{listed, listed_lawful};

use super::Table;
use super::lists::{fits, longest, sorted};
use crate::listed::Listed;
use crate::rows::Row;
use crate::system::System;
use actions::action::Action;
use std::alloc::{AllocError, Global};

impl Table {
    // Every list of rows is a table. Rows that are no transition are passed over, and where the limits are passed the table
    // is outsize.
    pub fn new(heap: Global, n: u32, rows: &[Row]) -> Result<Table, AllocError>
        ensures { IfOk result (λ x. listed x.listed ≡ table_of n (triples rows.now)) }
    {
        let states = if fits(n, rows) {
            sorted(heap, n, rows)?
        } else {
            Vec::new(heap)
        };
        let w = longest(&states);
        Ok(Table {
            listed: Listed { w, states },
        })
    }
}

// Each question is passed on to what is worked out, so that a table has a name and a contract of its own.
impl System for Table {
    ghost meaning = { λ x. listed x.listed };

    ghost lawful = { λ x. listed_lawful x.listed };

    fn states(&self) -> usize {
        self.listed.states()
    }

    fn width(&self) -> usize {
        self.listed.width()
    }

    fn count(&self, s: usize) -> usize {
        self.listed.count(s)
    }

    fn nth(&self, s: usize, k: usize) -> Option<(Action, usize)> {
        self.listed.nth(s, k)
    }
}
