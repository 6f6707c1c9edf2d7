// A record with any dart table in place of the signature: what the layout lister reads.
ghost use Rattle.std.specs.Prelude.{◌≡◌, ◌≢◌, ◌*◌, ◌≤◌, length, IfOk, MatchOption};
ghost use Rattle.drawer.specs.Record.{record_size, read_table};
ghost use Rattle.drawer.specs.Answers.{reading_of, ReadsAs};

use crate::fields::{Layout, Record, RecordFault, die_of, filed_table, read_header, read_word};

// The die number as it stands, and the reading.
#[derive(Clone, Copy, Debug, PartialEq, Eq)]
pub struct Entry {
    pub die: u32,
    pub reading: Result<Layout, RecordFault>,
}

// The bytes as those of a record, where they are 2,048.
#[tactic(auto, unfolding(crate::specs::Record::record_size))]
fn record_in(bytes: &[u8]) -> Option<&Record>
    ensures { MatchOption result
        (length bytes.now ≢ record_size)
        (λ filed. (length bytes.now ≡ record_size) × (filed.now ≡ bytes.now)) }
{
    <&Record>::try_from(bytes).ok()
}

// The reading of a record whose word may be any accepted map.
#[tactic(auto, using(crate::proofs::Inside::table_fault))]
fn judge_table(filed: &Record) -> Result<Layout, RecordFault>
    ensures reads { reading_of result filed.now ≡ read_table filed.now }
    ensures small { IfOk result (λ l. l.n * l.m ≤ 1020) }
{
    // Document 01's form: a fault goes straight back.
    let header = read_header(filed);
    let Ok(layout) = header else {
        return header;
    };
    // Document 01: fixed memory, no heap.
    let mut word = [0; 1020];
    labels::check(filed_table(filed, layout, &mut word))?;
    Ok(layout)
}

// Reads a record, for whatever a caller hands in: nothing where the bytes are not 2,048 or the list has no room for 1,020 numbers.
// The table of an accepted map is put in front of the list.
pub fn read_table(bytes: &[u8], table: &mut [u16]) -> Option<Entry>
    ensures { ReadsAs bytes.now table.old result table.new }
{
    let filed = record_in(bytes)?;
    if table.len() < 1020 {
        return None;
    }
    let reading = judge_table(filed);
    if let Ok(layout) = reading {
        read_word(filed, layout.n * layout.m, table);
    }
    Some(Entry {
        die: die_of(filed),
        reading,
    })
}
