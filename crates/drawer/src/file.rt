// Filing: the next record is written where nothing stands against it.
ghost use Rattle.std.specs.Prelude.{◌≡◌, ◌+◌, ◌*◌, ◌<◌, ◌≤◌, length, MatchResult};
ghost use Rattle.maps.specs.Shown.{given};
ghost use Rattle.maps.specs.Verdict.{accepted, in_order};
ghost use Rattle.drawer.specs.Record.{filed_in};
ghost use Rattle.drawer.specs.Drawer.{drawer, judge_next};
ghost use Rattle.drawer.specs.Shown.{lent_drawer, shown_drawer};
ghost use Rattle.drawer.specs.Answers.{FilesAs};

use crate::check::good_drawer;
use crate::fields::{RECORD_SIZE, Record};
use crate::records::{MOST_RECORDS, Records};
use crate::refusal::DrawerRefusal;
use crate::write::make_record;
use maps::Table;

// 13, 14 and 16 to 18: what stands against a record as the next one of a drawer.
#[tactic(auto, using(crate::proofs::Calls::next_laws))]
fn judge_next(die: u32, filed: &Record, drawer: Records<'_>) -> Result<(), DrawerRefusal>
    ensures { MatchResult result
        (λ _. (drawer.entry.count < MOST_RECORDS)
        × ((drawer.entry.count + 1) * RECORD_SIZE ≤ length drawer.entry.bytes.now)
        × (accepted ≡ in_order (judge_next die (filed_in filed.now).layout (lent_drawer drawer.entry))))
        (λ refusal. shown_drawer refusal ≡ in_order (judge_next die (filed_in filed.now).layout (lent_drawer drawer.entry))) }
{
    let held = good_drawer(drawer)?;
    if die == 0 {
        return Err(DrawerRefusal::Die(0));
    }
    if let Some(k) = held.with_die(die) {
        return Err(DrawerRefusal::Die(k));
    }
    if let Some(k) = held.with_layout(filed) {
        return Err(DrawerRefusal::Layout(k));
    }
    if drawer.count == MOST_RECORDS || drawer.bytes.len() < (drawer.count + 1) * RECORD_SIZE {
        return Err(DrawerRefusal::Full);
    }
    Ok(())
}

// Files the signature of a map under a die number, for whatever a caller hands in, and answers the new count. Count and bytes come
// apart, since the bytes are lent to be written.
pub fn file_layout(
    die: u32,
    table: Table<'_>,
    count: usize,
    bytes: &mut [u8],
) -> Result<usize, DrawerRefusal>
    ensures { FilesAs die (given table.entry) (drawer count bytes.old) result bytes.new }
{
    let filed = make_record(die, table)?;
    judge_next(die, &filed, Records { count, bytes })?;
    let from = count * RECORD_SIZE;
    bytes[from..from + RECORD_SIZE].copy_from_slice(&filed);
    Ok(count + 1)
}
