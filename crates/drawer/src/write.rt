// A record written: the bytes of a die and of the signature of a map.
ghost use Rattle.std.specs.Prelude.{◌≡◌, ◌++◌, drop, MatchResult};
ghost use Rattle.maps.specs.Given.{Shaped};
ghost use Rattle.maps.specs.Shown.{given, shown_refusal};
ghost use Rattle.maps.specs.Verdict.{accepted};
ghost use Rattle.labels.specs.Judging.{check_answer};
ghost use Rattle.drawer.specs.Record.{record_bytes};
ghost use Rattle.drawer.specs.Drawer.{layout_of};

use crate::fields::{RECORD_SIZE, Record};
use maps::{Refusal, Table};

// The bytes before the word are put.
fn put_fields(filed: &mut Record, fields: &[u8; 8])
    ensures { filed.new ≡ fields.now ++ drop 8 filed.old }
{
    filed[..8].copy_from_slice(fields);
}

// The record of a die and a layout.
#[tactic(auto, using(crate::proofs::Writing::begun_turn))]
fn record_of(die: u32, layout: Table<'_>) -> Record
    requires { Shaped (given layout) }
    ensures { result ≡ record_bytes (record { die = die; layout = given layout.entry }) }
{
    let Table {
        n,
        m,
        numbers: word,
    } = layout;
    let [a, b, c, d] = die.to_le_bytes();
    // The bounds of a map let both casts be: n is 1 to 4, and m at most 1,020.
    let [low, high] = (m as u16).to_le_bytes();
    // Document 01: fixed memory, no heap.
    let mut filed = [0; RECORD_SIZE];
    put_fields(&mut filed, &[a, b, c, d, n as u8, 0, low, high]);
    // Byte by byte: `copy_from_slice` of two bytes takes twenty times as long, since the loop is no longer one of vectors.
    for (i, x) in word.iter().enumerate() {
        let [low, high] = x.to_le_bytes();
        filed[8 + 2 * i] = low;
        filed[9 + 2 * i] = high;
    }
    filed
}

// The record of a die and of the signature of a map, where the check accepts it.
pub(crate) fn make_record(die: u32, table: Table<'_>) -> Result<Record, Refusal>
    ensures { MatchResult result
        (λ filed. (check_answer (given table.entry) ≡ accepted)
        × (filed ≡ record_bytes (record { die = die; layout = layout_of (given table.entry) })))
        (λ refusal. shown_refusal refusal ≡ check_answer (given table.entry)) }
{
    let Table { n, m, .. } = table;
    // Document 01: fixed memory, no heap.
    let mut word = [0; 1020];
    words::signature(table, &mut word)?;
    Ok(record_of(
        die,
        Table {
            n,
            m,
            numbers: &word[..n * m],
        },
    ))
}
