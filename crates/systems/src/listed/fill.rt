ghost use Rattle.std.specs.Prelude.{◌≡◌, IfOk};
ghost use Rattle.systems.specs.Listings.{listed};

use super::Listed;
use crate::lists::{Asked, Lists};
use crate::system::System;
use std::alloc::{AllocError, Global};

impl Listed {
    // Works out what the source lists. Only memory can be wanting.
    pub fn of<L: Lists>(heap: Global, source: &L) -> Result<Listed, AllocError>
        ensures { IfOk result (λ x. listed x ≡ L.Lists.meaning source.now) }
    {
        let n = source.states();
        let mut states = Vec::with_capacity(heap, n)?;
        for s in 0..n {
            states.push(source.list(heap, s)?)?;
        }
        Ok(Listed {
            w: source.width(),
            states,
        })
    }

    // A copy of any system in which each question is a read.
    pub fn copy_of<S: System>(heap: Global, system: &S) -> Result<Listed, AllocError>
        ensures { IfOk result (λ x. listed x ≡ S.System.meaning system.now) }
    {
        Listed::of(heap, &Asked::of(system))
    }
}
