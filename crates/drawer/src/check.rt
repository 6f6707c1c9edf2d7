// The drawer check: each record is read, and its die and its layout are looked for in the records before it.
ghost use Rattle.std.specs.Prelude.{◌≡◌, ◌≤◌, MatchResult};
ghost use Rattle.maps.specs.Least.{least, found_at};
ghost use Rattle.maps.specs.Verdict.{accepted};
ghost use Rattle.drawer.specs.Drawer.{bad_record, drawer_answer};
ghost use Rattle.drawer.specs.Shown.{lent_drawer, shown_drawer, drawer_verdict};

use crate::fields::read_record;
use crate::records::{Held, Records};
use crate::refusal::DrawerRefusal;

// Record k is bad, by itself or because an earlier record has its die or its layout. k is bounded as in
// `Held::record`.
#[tactic(auto, using(crate::proofs::Checking::bad_laws))]
fn is_bad(held: Held<'_>, k: usize) -> bool
    requires low { 1 ≤ k }
    requires high { k ≤ held.records.count }
    ensures { result ≡ bad_record held.entry.records.bytes.now k }
{
    let filed = held.record(k);
    // Document 01's form.
    let Ok(layout) = read_record(filed) else {
        return true;
    };
    let before = held.before(k);
    before.with_die(layout.die).is_some() || before.with_layout(filed).is_some()
}

// The first bad record.
#[tactic(auto, using(crate::proofs::Checking::first_laws))]
fn first_bad(held: Held<'_>) -> Option<usize>
    ensures { result ≡ found_at (least held.entry.records.count (bad_record held.entry.records.bytes.now)) }
{
    for k in 1..=held.records.count {
        if is_bad(held, k) {
            return Some(k);
        }
    }
    None
}

// The records of a drawer that 13 and 14 let pass.
#[tactic(auto, using(crate::proofs::Calls::check_laws))]
pub(crate) fn good_drawer(drawer: Records<'_>) -> Result<Held<'_>, DrawerRefusal>
    ensures { MatchResult result
        (λ held. (held.records ≡ drawer.entry) × (drawer_answer (lent_drawer drawer.entry) ≡ accepted))
        (λ refusal. shown_drawer refusal ≡ drawer_answer (lent_drawer drawer.entry)) }
{
    let held = Held::new(drawer)?;
    match first_bad(held) {
        Some(k) => Err(DrawerRefusal::Bad(k)),
        None => Ok(held),
    }
}

// Judges a drawer, for whatever a caller hands in.
pub fn check_drawer(drawer: Records<'_>) -> Result<(), DrawerRefusal>
    ensures { drawer_verdict result ≡ drawer_answer (lent_drawer drawer.entry) }
{
    good_drawer(drawer)?;
    Ok(())
}
