// The judging of a handed-in list.
#![tactic(auto)]

ghost use Rattle.std.specs.Prelude.{◌≡◌, ℕ, ◌+◌, ◌≤◌, ◌<◌, not, eqb, length, slice_index};
ghost use Rattle.std.specs.List.{list_any, zip};
ghost use Rattle.maps.specs.Least.{nth, found_at};
ghost use Rattle.maps.specs.Map.{sew};
ghost use Rattle.maps.specs.Given.{map_of, Shaped};
ghost use Rattle.maps.specs.Shown.{given};
ghost use Rattle.matches.specs.Judge.{bad_image, parts, judge_answer};
ghost use Rattle.matches.specs.Shown.{shown_list_refusal, list_verdict_of};
ghost use Rattle.matches.specs.Inside.{not_kept, judge_images};

use maps::{Refusal, Shown, Table};

// Why a list is no matching of a first map with a second.
#[derive(Clone, Copy, Debug, PartialEq, Eq)]
pub enum ListRefusal {
    First(Refusal),
    Second(Refusal),
    // n or m differ.
    Unlike,
    // The first dart whose image is wrong, or 0 for a list of another length. The length has no variant of its own: it would show what
    // `Image(0)` shows, and `judge_list_only` says that no second answer fits.
    Image(usize),
    // The least dart of which some βi is not kept.
    NotKept(usize),
}

impl Shown for ListRefusal {
    ghost shown = { shown_list_refusal };

    #[tactic(auto, using(crate::proofs::Shown::shown_second, maps::proofs::Answer::refusal_high), unfolding(maps::specs::Verdict::refused))]
    fn number_and_place(&self) -> (u32, usize) {
        match self {
            ListRefusal::First(refusal) => refusal.number_and_place(),
            ListRefusal::Second(refusal) => {
                let (number, place) = refusal.number_and_place();
                (number + 20, place)
            }
            ListRefusal::Unlike => (10, 0),
            ListRefusal::Image(dart) => (11, *dart),
            ListRefusal::NotKept(dart) => (12, *dart),
        }
    }
}

// Two tables in shape, of one n and m.
#[derive(Clone, Copy)]
struct Pair<'a> {
    first: Table<'a>,
    second: Table<'a>,
    ghost first_shaped: { Shaped (given first) },
    ghost second_shaped: { Shaped (given second) },
    ghost same_dim: { first.n ≡ second.n },
    ghost same_darts: { first.m ≡ second.m },
}

// A pair with a list that has a dart for the image of each.
#[derive(Clone, Copy)]
struct Images<'a> {
    pair: Pair<'a>,
    list: &'a [u16],
    ghost to_darts: { (d : ℕ) → 1 ≤ d → d ≤ pair.first.m → (1 ≤ nth list.now d) × (nth list.now d ≤ pair.first.m) },
}

// What a dart is sewn to by β1, .. βn. The crates below have the like, and no public function may ask for a table in shape.
#[tactic(auto, using(crate::proofs::Inside::row_within))]
fn row_of(table: Table<'_>, d: usize) -> &[u16]
    requires shaped { Shaped (given table) }
    requires dart { (1 ≤ d) × (d ≤ table.m) }
    ensures long { length result.now ≡ table.entry.n }
    ensures sewn { (i : ℕ) → i < table.entry.n → slice_index result.now i ≡ sew (map_of (given table.entry)) (i + 1) d }
{
    let start = (d - 1) * table.n;
    &table.numbers[start..start + table.n]
}

impl Images<'_> {
    // The image of e. 0 goes to 0, as document 01 says, and so does what is no dart.
    #[tactic(auto, using(crate::proofs::Inside::read_at))]
    fn image(self, e: usize) -> usize
        ensures { result ≡ nth self.entry.list.now e }
    {
        if e == 0 {
            return 0;
        }
        self.list.get(e - 1).map_or(0, |image| usize::from(*image))
    }

    // A row has another entry than that of the row beside it for its image.
    fn differ(self, row: &[u16], image_row: &[u16]) -> bool
        ensures { result ≡ list_any (λ p. not (eqb (nth self.entry.list.now p.0) p.1)) (zip row.now image_row.now) }
    {
        row.iter()
            .zip(image_row)
            .any(|(e, e2)| self.image(usize::from(*e)) != usize::from(*e2))
    }

    // Some βi of dart d is not kept, sewn or unsewn.
    fn not_kept(self, d: usize) -> bool
        requires { (1 ≤ d) × (d ≤ self.pair.first.m) }
        ensures { result ≡ parts (map_of (given self.entry.pair.first)) (map_of (given self.entry.pair.second)) self.entry.list.now d }
    {
        let row = row_of(self.pair.first, d);
        let image_row = row_of(self.pair.second, self.image(d));
        self.differ(row, image_row)
    }

    // The least dart that is not kept.
    #[tactic(auto, using(maps::proofs::Least::search_over), unfolding(crate::specs::Inside::not_kept))]
    fn first_not_kept(self) -> Option<usize>
        ensures { result ≡ found_at (not_kept (given self.entry.pair.first) (given self.entry.pair.second) self.entry.list.now) }
    {
        for d in 1..=self.pair.first.m {
            if self.not_kept(d) {
                return Some(d);
            }
        }
        None
    }
}

// The first dart whose value is 0, above the length or used before.
#[tactic(auto, using(maps::proofs::Least::search_over), unfolding(crate::specs::Judge::bad_image))]
fn first_bad(list: &[u16]) -> Option<usize>
    requires { length list.now ≤ 1020 }
    ensures { result ≡ found_at (bad_image (length list.now) list.now) }
{
    // A flag for each dart that there may be, since memory is fixed (document 01).
    let mut used = [false; 1020];
    for (index, value) in list.iter().enumerate() {
        let e = usize::from(*value);
        if e == 0 || list.len() < e || used[e - 1] {
            return Some(index + 1);
        }
        used[e - 1] = true;
    }
    None
}

impl Pair<'_> {
    // 11 and 12, of a list for two accepted maps of one n and m.
    fn judge(self, list: &[u16]) -> Result<(), ListRefusal>
        ensures { list_verdict_of result ≡ judge_images (given self.entry.first) (given self.entry.second) list.now }
    {
        if list.len() != self.first.m {
            return Err(ListRefusal::Image(0));
        }
        if let Some(dart) = first_bad(list) {
            return Err(ListRefusal::Image(dart));
        }
        let images = Images { pair: self, list };
        if let Some(dart) = images.first_not_kept() {
            return Err(ListRefusal::NotKept(dart));
        }
        Ok(())
    }
}

// Says whether a list is a matching of the first map with the second, for whatever a caller hands in. The image of dart d stands
// at index d - 1.
pub fn judge_list(first: Table<'_>, second: Table<'_>, list: &[u16]) -> Result<(), ListRefusal>
    ensures { list_verdict_of result ≡ judge_answer (given first.entry) (given second.entry) list.now }
{
    labels::check(first).map_err(ListRefusal::First)?;
    labels::check(second).map_err(ListRefusal::Second)?;
    if first.n != second.n || first.m != second.m {
        return Err(ListRefusal::Unlike);
    }
    let pair = Pair { first, second };
    pair.judge(list)
}
