// The signature: the least word over all starts, with its start and symmetries.
ghost use Rattle.std.specs.Prelude.{◌≡◌, replicate};
ghost use Rattle.maps.specs.Shown.{given};
ghost use Rattle.words.specs.Sign.{SignsAs};
ghost use Rattle.words.specs.Inside.{Settles, Settled, Spells, SpeltOut, Signs};

use crate::engine::{Blank, try_start};
use crate::first_row::{least_rank, passed_over};
use crate::found::Signature;
use crate::map::Map;
use crate::orbits::Forest;
use maps::{Output, Refusal, Table};
use std::cmp::Ordering;

// A start that is less in its first rows is often beaten soon: so many rows of the best word are spelt out at first.
const FEW_ROWS: usize = 16;

// A start has come out: a lesser word leads from now on, and at a tie the darts that have one label have one word. The least
// start of the best word is handed back. Start, lead and forest come one by one: they are locals of the run.
#[tactic(auto, unfolding(crate::specs::Inside::started_at, crate::specs::Sign::over))]
fn settle(
    side: Ordering,
    m: usize,
    d: usize,
    kept: usize,
    queue: &[u16; 1020],
    lead: &mut [u16; 1020],
    forest: &mut Forest,
) -> usize
    requires { Settles side m queue.now lead.old }
    ensures { Settled side m d kept queue.now lead.old forest.old.up lead.new forest.new.up result }
{
    match side {
        Ordering::Less => {
            lead[..m].copy_from_slice(&queue[..m]);
            d
        }
        Ordering::Equal => {
            forest.join_all(&queue[..m], &lead[..m]);
            kept
        }
        Ordering::Greater => kept,
    }
}

// The best word is spelt out where some of its rows are not known: behind them stand numbers above all labels, so that its own
// start is less.
fn spell_out(
    map: Map<'_>,
    blank: &mut Blank,
    queue: &mut [u16; 1020],
    word: &mut [u16; 1020],
    start: usize,
    rows: usize,
)
    requires { Spells (given map.table) word.old start rows }
    ensures { SpeltOut (given map.entry.table) start rows queue.new word.new }
{
    let m = map.table.m;
    if rows < m {
        try_start(&map, blank, queue, word, start, m, false);
    }
}

// The signature under way: the best word so far. Document 01 has an array in a struct's state: this one.
#[derive(Drop)]
struct Signing {
    word: [u16; 1020],
}

impl Signing {
    // Before any start, every number stands above all labels, so that the first start is less.
    fn blank() -> Signing
        ensures { result.word ≡ replicate 1020 65535 }
    {
        Signing {
            word: [65535; 1020],
        }
    }

    // All starts, one after the other, but for those that a lesser dart has decided, which has their word, and those whose first
    // row is not the least. The array then begins with the least word.
    fn run(&mut self, map: Map<'_>, blank: &mut Blank) -> Signature
        requires { self.old.word ≡ replicate 1020 65535 }
        ensures { Signs (given map.entry.table) self.new.word result }
    {
        let m = map.table.m;
        let least = least_rank(map);
        let mut queue = [0u16; 1020];
        let mut lead = [0u16; 1020];
        let mut forest = Forest::new();
        let mut rows = m.min(FEW_ROWS);
        // 0 is no dart: none leads yet. The word that the definitions give for it is the blank one, so no `Option` is taken apart.
        let mut start = 0;
        for d in 1..m + 1 {
            if passed_over(map, &forest, least, d) {
                continue;
            }
            let mut side = try_start(&map, blank, &mut queue, &mut self.word, d, rows, false);
            // The start agrees with all that is known: it is tried again when the rest is.
            if side.is_eq() && rows < m {
                spell_out(map, blank, &mut lead, &mut self.word, start, rows);
                rows = m;
                side = try_start(&map, blank, &mut queue, &mut self.word, d, rows, false);
            }
            start = settle(side, m, d, start, &queue, &mut lead, &mut forest);
        }
        spell_out(map, blank, &mut queue, &mut self.word, start, rows);
        let symmetries = forest.tree_size(m, start);
        Signature { start, symmetries }
    }
}

// The signature of a dart table, for whatever a caller hands in. A refusal leaves the output as it was.
pub fn signature(table: Table<'_>, output: &mut [u16]) -> Result<Signature, Refusal>
    ensures { SignsAs (given table.entry) output.old result output.new }
{
    let mut back = [0; 1020];
    let mut blank = Blank::new();
    labels::judge(
        table,
        Output::Word(output.len()),
        &mut back,
        &mut blank.labels,
    )?;
    let map = Map { table, back: &back };
    let mut signing = Signing::blank();
    let found = signing.run(map, &mut blank);
    let size = table.n * table.m;
    output[..size].copy_from_slice(&signing.word[..size]);
    Ok(found)
}
