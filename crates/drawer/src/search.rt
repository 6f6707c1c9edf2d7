// Search, and the record's own bytes.
ghost use Rattle.std.specs.Prelude.{◌≡◌, ◌≤◌, MatchResult};
ghost use Rattle.maps.specs.Shown.{given};
ghost use Rattle.maps.specs.Verdict.{accepted};
ghost use Rattle.drawer.specs.Drawer.{layout_of, record_of, judge_search, search_answer, own_bytes};
ghost use Rattle.drawer.specs.Shown.{lent_drawer, shown_drawer};
ghost use Rattle.drawer.specs.Answers.{shown_search};

use crate::check::good_drawer;
use crate::fields::die_of;
use crate::records::{Found, Held, Records};
use crate::refusal::DrawerRefusal;
use crate::write::make_record;
use maps::Table;

// The records of the drawer, and which of them has the layout of a map. What is looked for has the form of a record, whose die is
// not looked at.
#[tactic(auto, using(crate::proofs::Calls::search_laws))]
fn search<'a>(table: Table<'_>, drawer: Records<'a>) -> Result<(Held<'a>, usize), DrawerRefusal>
    ensures { MatchResult result
        (λ found. (found.0.records ≡ drawer.entry)
        × (1 ≤ found.1)
        × (found.1 ≡ record_of (layout_of (given table.entry)) (lent_drawer drawer.entry))
        × (judge_search (given table.entry) (lent_drawer drawer.entry) ≡ accepted))
        (λ refusal. shown_drawer refusal ≡ judge_search (given table.entry) (lent_drawer drawer.entry)) }
{
    let sought = make_record(0, table)?;
    let held = good_drawer(drawer)?;
    match held.with_layout(&sought) {
        Some(at) => Ok((held, at)),
        None => Err(DrawerRefusal::NotFound),
    }
}

// Finds the record whose layout has a matching with a map, for whatever a caller hands in.
#[tactic(auto, using(crate::proofs::Calls::answer_laws), unfolding(crate::specs::Drawer::entry_at))]
pub fn search_drawer(table: Table<'_>, drawer: Records<'_>) -> Result<Found, DrawerRefusal>
    ensures { shown_search result ≡ search_answer (given table.entry) (lent_drawer drawer.entry) }
{
    let (held, at) = search(table, drawer)?;
    Ok(Found {
        die: die_of(held.record(at)),
        at,
    })
}

// The bytes of the record that search names, as that part of the drawer; none where it refuses: no `Option`, since
// `own_bytes`, which is promised, is empty there.
#[tactic(auto, using(crate::proofs::Calls::record_high))]
pub fn found<'a>(table: Table<'_>, drawer: Records<'a>) -> &'a [u8]
    ensures { result.now ≡ own_bytes (given table.entry) (lent_drawer drawer.entry) }
{
    match search(table, drawer) {
        Ok((held, at)) => held.record(at),
        Err(_) => &drawer.bytes[..0],
    }
}
