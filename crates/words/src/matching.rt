// The match of two maps, and the matching that it shows: dart 1 goes to the least dart of the second map that any takes it to. Its
// arrays are locals (document 01).
ghost use Rattle.std.specs.Prelude.{◌≡◌, replicate};
ghost use Rattle.maps.specs.Shown.{given};
ghost use Rattle.words.specs.Match.{shown_mismatch, MatchesAs};
ghost use Rattle.words.specs.Sign.{over};
ghost use Rattle.words.specs.Inside.{Sought, Images, images_of};

use crate::engine::{Blank, try_start};
use crate::map::Map;
use maps::{Output, Refusal, Shown, Table};

// Why two tables have no match: one of them is refused, or the maps differ.
#[derive(Clone, Copy, Debug, PartialEq, Eq)]
pub enum Mismatch {
    First(Refusal),
    Second(Refusal),
    Unmatched,
}

impl Shown for Mismatch {
    ghost shown = { shown_mismatch };

    #[tactic(auto, using(maps::proofs::Answer::refusal_high), unfolding(maps::specs::Verdict::refused))]
    fn number_and_place(&self) -> (u32, usize) {
        match *self {
            Mismatch::First(refusal) => refusal.number_and_place(),
            // `matches` has the like: each error enum shows its own.
            Mismatch::Second(refusal) => {
                let (number, place) = refusal.number_and_place();
                (20 + number, place)
            }
            Mismatch::Unmatched => (10, 0),
        }
    }
}

// The least start whose word is the one held. The queue then has its darts in the order labelled.
fn first_alike(
    map: Map<'_>,
    blank: &mut Blank,
    queue: &mut [u16; 1020],
    word: &mut [u16; 1020],
) -> Option<usize>
    ensures { Sought (given map.entry.table) word.old result queue.new }
{
    let m = map.table.m;
    for d in 1..m + 1 {
        if try_start(&map, blank, queue, word, d, m, true).is_eq() {
            return Some(d);
        }
    }
    None
}

// The images are written: the dart that stands at a place of the first queue goes to the one at that place of the second.
fn show(first: &[u16], second: &[u16], output: &mut [u16])
    requires { Images first.now second.now output.old }
    ensures { output.new ≡ over (images_of first.now second.now) output.old }
{
    for (dart, image) in first.iter().zip(second) {
        output[usize::from(*dart) - 1] = *image;
    }
}

// The match of two dart tables, for whatever a caller hands in.
pub fn match_maps(first: Table<'_>, second: Table<'_>, output: &mut [u16]) -> Result<(), Mismatch>
    ensures { MatchesAs (given first.entry) (given second.entry) output.old result output.new }
{
    let mut back = [0u16; 1020];
    let mut blank = Blank::new();
    labels::judge(
        first,
        Output::Images(output.len()),
        &mut back,
        &mut blank.labels,
    )
    .map_err(Mismatch::First)?;
    // Every number stands above all labels, so that the first map's word from dart 1 takes its place.
    let mut word = [65535u16; 1020];
    let mut queue = [0u16; 1020];
    let map = Map {
        table: first,
        back: &back,
    };
    try_start(&map, &mut blank, &mut queue, &mut word, 1, first.m, false);
    labels::judge(second, Output::Nothing, &mut back, &mut blank.labels).map_err(Mismatch::Second)?;
    if first.n != second.n || first.m != second.m {
        return Err(Mismatch::Unmatched);
    }
    let map = Map {
        table: second,
        back: &back,
    };
    let mut images = [0u16; 1020];
    first_alike(map, &mut blank, &mut images, &mut word).ok_or(Mismatch::Unmatched)?;
    show(&queue[..first.m], &images[..first.m], output);
    Ok(())
}
