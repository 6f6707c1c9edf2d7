// "Equal to its own signature": each start is compared with the table itself, and left at the first number that differs. Its arrays
// are locals (document 01).
ghost use Rattle.std.specs.Prelude.{◌≡◌, ◌≤◌, ◌*◌, length, take, replicate};
ghost use Rattle.maps.specs.Given.{map_of};
ghost use Rattle.maps.specs.Shown.{given};
ghost use Rattle.words.specs.Words.{same, signature};
ghost use Rattle.words.specs.Sign.{over};
ghost use Rattle.words.specs.Own.{shown_own, own_answer};
ghost use Rattle.words.specs.Inside.{Leads};

use crate::engine::{Blank, try_start};
use crate::first_row::{passed_over, rank};
use crate::map::Map;
use crate::orbits::Forest;
use maps::{Output, Refusal, Table};
use std::cmp::Ordering;

// The numbers of a table, held as a word.
#[tactic(auto, unfolding(crate::specs::Sign::over))]
fn hold(table: &[u16], word: &mut [u16; 1020])
    requires { length table.now ≤ 1020 }
    ensures { word.new ≡ over table.now word.old }
{
    word[..table.len()].copy_from_slice(table);
}

// The word held, which start 1 yields, is the least: no start is less. A start is passed over that a lesser dart has decided, or
// that its first row shows to be greater.
fn is_least(map: Map<'_>, blank: &mut Blank, lead: &[u16; 1020], word: &mut [u16; 1020]) -> bool
    requires { Leads (given map.table) lead.now word.old }
    ensures { result ≡ same (take (map.entry.table.n * map.entry.table.m) word.old) (signature (map_of (given map.entry.table))) }
{
    let m = map.table.m;
    let first = rank(map, 1);
    let mut queue = [0u16; 1020];
    let mut forest = Forest::new();
    for d in 2..m + 1 {
        if passed_over(map, &forest, first, d) {
            continue;
        }
        match try_start(&map, blank, &mut queue, word, d, m, true) {
            Ordering::Less => return false,
            Ordering::Equal => forest.join_all(&queue[..m], &lead[..m]),
            Ordering::Greater => {}
        }
    }
    true
}

// Whether an accepted table is its own signature. A signature is what start 1 yields, so start 1 leads.
fn is_own(map: Map<'_>, blank: &mut Blank) -> bool
    ensures { result ≡ same map.entry.table.numbers.now (signature (map_of (given map.entry.table))) }
{
    let mut word = [0u16; 1020];
    hold(map.table.numbers, &mut word);
    let mut lead = [0u16; 1020];
    let first = try_start(&map, blank, &mut lead, &mut word, 1, map.table.m, true);
    if first.is_ne() {
        return false;
    }
    is_least(map, blank, &lead, &mut word)
}

// Whether a dart table is its own signature, for whatever a caller hands in.
pub fn own_word(table: Table<'_>) -> Result<bool, Refusal>
    ensures { shown_own result ≡ own_answer (given table.entry) }
{
    let mut back = [0u16; 1020];
    let mut blank = Blank::new();
    labels::judge(table, Output::Nothing, &mut back, &mut blank.labels)?;
    let map = Map { table, back: &back };
    Ok(is_own(map, &mut blank))
}
