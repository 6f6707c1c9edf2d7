// A table in shape, as this crate's own functions take it. It has a file of its own, since a type with a ghost field depends on what
// its file's clauses name.
ghost use Rattle.maps.specs.Given.{Shaped};
ghost use Rattle.maps.specs.Shown.{given};

use crate::Table;

// A table that rules 1, 2 and 3 have passed.
#[derive(Clone, Copy)]
pub(crate) struct InShape<'a> {
    pub(crate) table: Table<'a>,
    ghost shaped: { Shaped (given table) },
}
