ghost use Rattle.std.specs.Prelude.{vec_len};
ghost use Rattle.designs.specs.Tables.{Sound};
ghost use Rattle.designs.specs.Shapes.{Shaped};
ghost use Rattle.designs.specs.Operations.{forms_in};

mod drafting;

use super::entry::Entry;

// Nodes worked out, each an operation over earlier ones.
#[derive(Drop)]
pub struct Outline {
    pub entries: Vec<Entry>,
    ghost sound: { Sound (forms_in entries.items) },
    ghost shaped: { Shaped (forms_in entries.items) entries.items (vec_len entries) },
}
