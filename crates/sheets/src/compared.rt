ghost use Rattle.std.specs.Prelude.{◌≡◌, ◌&&◌, if◌then◌else◌, Some, None, nat_lt};
ghost use Rattle.theory.specs.Faults.{passed};
ghost use Rattle.certificates.specs.declared.fault.SheetFault.TheVariants.{NoSuchState};

use certificates::fault::SheetFault;
use layers::layer::Layer;
use std::marker::PhantomData;
use systems::system::System;

// Two systems under the layer Y, whose states the rows of a sheet pair.
#[derive(Drop)]
pub(crate) struct Compared<'a, Y: Layer, S: System, T: System> {
    pub(crate) left: &'a S,
    pub(crate) right: &'a T,
    pub(crate) layer: PhantomData<Y>,
}

impl<Y: Layer, S: System, T: System> Compared<'_, Y, S, T> {
    // The states of the row exist.
    pub(crate) fn check_states(&self, row: usize, s: usize, t: usize) -> Result<(), SheetFault>
        ensures { result ≡ passed (if nat_lt s (S.System.meaning self.now.left.now).n && nat_lt t (T.System.meaning self.now.right.now).n then None else Some (NoSuchState row)) }
    {
        if s < self.left.states() && t < self.right.states() {
            Ok(())
        } else {
            Err(SheetFault::NoSuchState { row })
        }
    }
}
