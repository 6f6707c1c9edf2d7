// What a map is: a dart table judged by rules 1 to 8, and β0 of each dart.
#![tactic(auto)]

ghost use Rattle.std.specs.Prelude.{ℕ, ◌≡◌, ◌≤◌, ◌*◌, ◌&&◌, leb, replicate};
ghost use Rattle.maps.specs.Least.{found_at};
ghost use Rattle.maps.specs.Map.{sew};
ghost use Rattle.maps.specs.Given.{map_of};
ghost use Rattle.maps.specs.Shown.{given, shown_refusal};
ghost use Rattle.maps.specs.Verdict.{Verdict, accepts};
ghost use Rattle.maps.specs.Rules as judging;
ghost use Rattle.maps.specs.Rules.{parted, wrong_entry, over_rule, reverse_rule, compose_rule, judge_output, judge_sewing};
ghost use Rattle.maps.specs.Answer.{JudgedAs};
ghost use Rattle.maps.specs.Inside.{IsSewing, Blank, BackAs, SpeaksFrom, ShapeJudged, EntriesJudged, wrong_sewing};

mod shape;

use shape::InShape;

// A dart table as a caller lends it: a dimension, a dart count and numbers, of which nothing is known.
#[derive(Clone, Copy)]
pub struct Table<'a> {
    pub n: usize,
    pub m: usize,
    pub numbers: &'a [u16],
}

impl Table<'_> {
    // 1: n is 1 to 4.
    fn has_dimension(self) -> bool
        ensures { result ≡ (leb 1 self.entry.n && leb self.entry.n 4) }
    {
        1 <= self.n && self.n <= 4
    }

    // 2: m is at least 1, and n·m at most 1,020.
    fn has_size(self) -> bool
        requires { (1 ≤ self.n) × (self.n ≤ 4) }
        ensures { result ≡ (leb 1 self.entry.m && leb (self.entry.n * self.entry.m) 1020) }
    {
        // m by itself first, so that the product fits.
        1 <= self.m && self.m <= 1020 && self.n * self.m <= 1020
    }
}

// Why one dart table is refused, by the rules 1 to 9, and where: 5 to 8 at the entry's place in the table, 9 at the dart.
#[derive(Clone, Copy, Debug, PartialEq, Eq)]
pub enum Refusal {
    Dimension,
    Size,
    Length,
    Room,
    Exceeds(usize),
    GivenBefore(usize),
    Unanswered(usize),
    Parted(usize),
    NotReached(usize),
}

// What the display shows of a refusal: its number and its place.
pub trait Shown {
    ghost shown: { Self → Verdict };

    fn number_and_place(&self) -> (u32, usize)
        ensures number { result.0 ≡ (shown self.now).number }
        ensures place { result.1 ≡ (shown self.now).place };
}

impl Shown for Refusal {
    ghost shown = { shown_refusal };

    #[tactic(auto, unfolding(crate::specs::Verdict::refused))]
    fn number_and_place(&self) -> (u32, usize) {
        match *self {
            Refusal::Dimension => (1, 0),
            Refusal::Size => (2, 0),
            Refusal::Length => (3, 0),
            Refusal::Room => (4, 0),
            Refusal::Exceeds(entry) => (5, entry),
            Refusal::GivenBefore(entry) => (6, entry),
            Refusal::Unanswered(entry) => (7, entry),
            Refusal::Parted(entry) => (8, entry),
            Refusal::NotReached(dart) => (9, dart),
        }
    }
}

// The output that a call is lent beside its table, with its length: none, one for a word, or one for a matching's images.
#[derive(Clone, Copy)]
pub enum Output {
    Nothing,
    Word(usize),
    Images(usize),
}

impl Output {
    // The output is long enough for what the call writes.
    #[tactic(auto, unfolding(crate::specs::Rules::judge_output, crate::specs::Verdict::unless, crate::specs::Verdict::accepts, crate::specs::Verdict::accepted, crate::specs::Verdict::refused))]
    fn has_room(self, n: usize, m: usize) -> bool
        requires { n * m ≤ 1020 }
        ensures { result ≡ accepts (judge_output self n m) }
    {
        match self {
            Output::Nothing => true,
            Output::Word(room) => n * m <= room,
            Output::Images(room) => m <= room,
        }
    }
}

// A dart and a sewing stay numbers, which `requires` bounds: a type for them would carry the table at each step.
impl InShape<'_> {
    // βi(d) for i from 1. Nothing is sewn to what is no dart: that is 0, as in the table itself (document 01).
    fn sewn(self, i: usize, d: usize) -> usize
        requires { IsSewing (given self.table) i }
        ensures { result ≡ sew (map_of (given self.entry.table)) i d }
    {
        // One test for both ends: the number before 0 is the largest of all. With `d == 0 ||` a check of dimension 4 took 5% more.
        let at = d.wrapping_sub(1);
        if self.table.m <= at {
            return 0;
        }
        usize::from(self.table.numbers[at * self.table.n + (i - 1)])
    }

    // The composition of βi and βj, twice, leads from d elsewhere.
    fn parts(self, i: usize, j: usize, d: usize) -> bool
        requires { IsSewing (given self.table) i × IsSewing (given self.table) j }
        ensures { result ≡ parted (map_of (given self.entry.table)) i j d }
    {
        let e = self.sewn(i, self.sewn(j, d));
        e != 0 && self.sewn(i, self.sewn(j, e)) != d
    }

    // The least sewing of d that breaks a rule. Ranges are half-open: `1..=n` costs more at each turn. By `min` the compiler sees that there
    // are four turns at most, and writes them out: without it a check of dimension 4 took 13 to 15% more instructions.
    fn wrong_sewing<R: Rule>(self, d: usize) -> Option<usize>
        ensures { result ≡ found_at (wrong_sewing (map_of (given self.entry.table)) R.rule d) }
    {
        for i in R::least_sewing()..self.table.n.min(4) + 1 {
            if R::breaks(self, d, i) {
                return Some(i);
            }
        }
        None
    }

    // The place of the least entry that breaks a rule.
    fn wrong_entry<R: Rule>(self) -> Option<usize>
        ensures { result ≡ found_at (wrong_entry (map_of (given self.entry.table)) R.rule) }
    {
        for d in 1..self.table.m + 1 {
            if let Some(i) = self.wrong_sewing::<R>(d) {
                return Some((d - 1) * self.table.n + i);
            }
        }
        None
    }

    // Finds β0 of each dart, and with it the least entry that breaks rule 6: a dart that β1 gave before has its β0 already.
    fn sew_back(self, back: &mut [u16; 1020]) -> Option<usize>
        requires { Blank (given self.table) back.old }
        ensures { BackAs (map_of (given self.entry.table)) result back.new }
    {
        for d in 1..self.table.m + 1 {
            let e = self.sewn(1, d);
            if e != 0 {
                if back[e - 1] != 0 {
                    return Some((d - 1) * self.table.n + 1);
                }
                // There are at most 1,020 darts.
                back[e - 1] = d as u16;
            }
        }
        None
    }

    // Rules 5 to 8. The array holds zeros before, and afterwards β0 of each dart where they pass. It stays a call: inside its caller the
    // compiler knows that n is at most 4, takes the `min` of the searches away, and no longer writes their turns out.
    #[inline(never)]
    fn judge_entries(self, back: &mut [u16; 1020]) -> Result<(), Refusal>
        requires { back.old ≡ replicate 1020 0 }
        ensures { EntriesJudged (map_of (given self.entry.table)) result back.new }
    {
        if let Some(entry) = self.wrong_entry::<Bounded>() {
            return Err(Refusal::Exceeds(entry));
        }
        if let Some(entry) = self.sew_back(back) {
            return Err(Refusal::GivenBefore(entry));
        }
        if let Some(entry) = self.wrong_entry::<Reversed>() {
            return Err(Refusal::Unanswered(entry));
        }
        if let Some(entry) = self.wrong_entry::<Composed>() {
            return Err(Refusal::Parted(entry));
        }
        Ok(())
    }
}

// A rule that is judged entry by entry, from the least sewing that it speaks of: 5, 7 and 8 are such.
trait Rule {
    ghost rule: { judging.Rule };

    // No lower sewing breaks the rule. A function, and no constant, since it promises that.
    fn least_sewing() -> usize
        ensures { SpeaksFrom rule result };

    fn breaks(shape: InShape<'_>, d: usize, i: usize) -> bool
        requires { IsSewing (given shape.table) i }
        ensures { result ≡ rule.broken (map_of (given shape.entry.table)) d i };
}

// 5: an entry is no more than the count of darts.
struct Bounded;

impl Rule for Bounded {
    ghost rule = { over_rule };

    #[tactic(auto, using(crate::proofs::Rules::over_speaks))]
    fn least_sewing() -> usize {
        1
    }

    fn breaks(shape: InShape<'_>, d: usize, i: usize) -> bool {
        shape.table.m < shape.sewn(i, d)
    }
}

// 7: where βi(d) is sewn, βi leads back.
struct Reversed;

impl Rule for Reversed {
    ghost rule = { reverse_rule };

    #[tactic(auto, using(crate::proofs::Rules::reverse_speaks))]
    fn least_sewing() -> usize {
        2
    }

    fn breaks(shape: InShape<'_>, d: usize, i: usize) -> bool {
        // The search begins at 2, and the rule as it is defined speaks of every sewing.
        if i < 2 {
            return false;
        }
        let e = shape.sewn(i, d);
        e != 0 && shape.sewn(i, e) != d
    }
}

// 8: no composition of βj with a lesser sewing parts.
struct Composed;

impl Rule for Composed {
    ghost rule = { compose_rule };

    #[tactic(auto, using(crate::proofs::Rules::compose_speaks))]
    fn least_sewing() -> usize {
        3
    }

    fn breaks(shape: InShape<'_>, d: usize, j: usize) -> bool {
        // `min` as in `wrong_sewing`: two turns at most.
        for i in 1..(j - 1).min(3) {
            if shape.parts(i, j, d) {
                return true;
            }
        }
        false
    }
}

// Rules 1 to 4: the table's shape, and the room in the output.
fn judge_shape<'a>(table: Table<'a>, output: Output) -> Result<InShape<'a>, Refusal>
    ensures { ShapeJudged output table.entry result }
{
    if !table.has_dimension() {
        return Err(Refusal::Dimension);
    }
    if !table.has_size() {
        return Err(Refusal::Size);
    }
    if table.numbers.len() != table.n * table.m {
        return Err(Refusal::Length);
    }
    if !output.has_room(table.n, table.m) {
        return Err(Refusal::Room);
    }
    Ok(InShape { table })
}

// Rules 1 to 8, in order, for whatever a caller hands in. The lent array then holds β0 of each dart, at index d - 1, where the
// table passed, and zeros where it is refused.
pub fn judge(table: Table<'_>, output: Output, back: &mut [u16; 1020]) -> Result<(), Refusal>
    ensures { JudgedAs (judge_sewing output) (given table.entry) result back.new }
{
    *back = [0; 1020];
    let shaped = judge_shape(table, output)?;
    let judged = shaped.judge_entries(back);
    if judged.is_err() {
        *back = [0; 1020];
    }
    judged
}
