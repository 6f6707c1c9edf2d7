// A map that the judge has passed, as this crate's own functions take it. It has a file of its own, since a type with ghost fields depends
// on what its file's clauses name.
ghost use Rattle.std.specs.Prelude.{◌≡◌, true};
ghost use Rattle.maps.specs.Given.{map_of};
ghost use Rattle.maps.specs.Verdict.{accepts};
ghost use Rattle.maps.specs.Answer.{backs_of};
ghost use Rattle.maps.specs.Shown.{given};
ghost use Rattle.labels.specs.Judging.{check_answer};

use maps::Table;

// The table and β0 of each dart. Whoever makes one shows that the check accepts the table and that this is β0. Each call judges its
// table and makes one, in two lines: a function for both would take as many arguments as they have.
#[derive(Clone, Copy)]
pub(crate) struct Map<'a> {
    pub(crate) table: Table<'a>,
    pub(crate) back: &'a [u16; 1020],
    ghost accepted: { accepts (check_answer (given table)) ≡ true },
    ghost backs: { back.now ≡ backs_of (map_of (given table)) },
}
