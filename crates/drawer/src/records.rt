// The records that a caller lends, and those of them that lie inside its bytes, where one is taken or looked for.
ghost use Rattle.std.specs.Prelude.{◌≡◌, ◌+◌, ◌-◌, ◌*◌, ◌≤◌, Bool, [], length, slice_index_or, EachIndex, MatchResult};
ghost use Rattle.maps.specs.Least.{least, found_at};
ghost use Rattle.maps.specs.Verdict.{accepted, refused};
ghost use Rattle.drawer.specs.Record.{Filed, filed_in};
ghost use Rattle.drawer.specs.Drawer.{record_at, entry_at, has_die, has_layout, record_of, record_of_die, judge_count};
ghost use Rattle.drawer.specs.Shown.{lent_drawer, shown_drawer};

use crate::fields::{RECORD_SIZE, Record, die_of, same_layout};
use crate::refusal::DrawerRefusal;

// How many records a drawer holds at most.
pub(crate) const MOST_RECORDS: usize = 1024;

// A drawer as a caller lends it: a count of records, and bytes, which may go on beyond them. Nothing is known of either.
#[derive(Clone, Copy)]
pub struct Records<'a> {
    pub count: usize,
    pub bytes: &'a [u8],
}

// A record that search finds: its die number, and which of the records it is, counted from 1.
// It stands here, since in `search.rt` the function `found` has its name but for the case of a letter.
#[derive(Clone, Copy, Debug, PartialEq, Eq)]
pub struct Found {
    pub die: u32,
    pub at: usize,
}

// The records that are lent, where they are no more than a drawer holds and lie inside the bytes. Count and bytes stay as they were
// lent, since the definitions speak of them. The two facts have the bare numbers: the type of a fact sees no constant of the code.
#[derive(Clone, Copy)]
pub(crate) struct Held<'a> {
    pub(crate) records: Records<'a>,
    ghost few: { records.count ≤ 1024 },
    ghost inside: { records.count * 2048 ≤ length records.bytes.now },
}

impl<'a> Held<'a> {
    // 13: a drawer holds at most 1,024 records, and they lie inside its bytes.
    #[tactic(auto, using(crate::proofs::Checking::count_laws))]
    pub(crate) fn new(records: Records<'a>) -> Result<Held<'a>, DrawerRefusal>
        ensures { MatchResult result
            (λ held. (held.records ≡ records.entry) × (judge_count (lent_drawer records.entry) ≡ accepted))
            (λ refusal. shown_drawer refusal ≡ judge_count (lent_drawer records.entry)) }
    {
        if MOST_RECORDS < records.count || records.bytes.len() < records.count * RECORD_SIZE {
            return Err(DrawerRefusal::Short);
        }
        Ok(Held { records })
    }

    // The records as one slice, which is searched with no test of where a record lies.
    fn all(self) -> &'a [Record]
        ensures long { length result.now ≡ self.entry.records.count }
        ensures each { EachIndex result.now (λ i. slice_index_or result.now i [] ≡ record_at self.entry.records.bytes.now (i + 1)) }
    {
        &self.records.bytes.as_chunks::<RECORD_SIZE>().0[..self.records.count]
    }

    // Record k, counted from 1. `requires` bounds k: a type for such a number would carry the records that it counts in.
    pub(crate) fn record(self, k: usize) -> &'a Record
        requires low { 1 ≤ k }
        requires high { k ≤ self.records.count }
        ensures { result.now ≡ record_at self.entry.records.bytes.now k }
    {
        &self.all()[k - 1]
    }

    // The records before record k, which is bounded as in `record`.
    pub(crate) fn before(self, k: usize) -> Held<'a>
        requires low { 1 ≤ k }
        requires high { k ≤ self.records.count }
        ensures { result.records ≡ record self.entry.records { count = k - 1 } }
    {
        Held {
            records: Records {
                count: k - 1,
                bytes: self.records.bytes,
            },
        }
    }

    // The first record that has what is looked for.
    #[tactic(auto, using(crate::proofs::Checking::first_laws), unfolding(crate::specs::Drawer::entry_at))]
    fn first<S: Sought>(self, sought: &S) -> Option<usize>
        ensures { result ≡ found_at (least self.entry.records.count (λ k. S.has sought.now (entry_at self.entry.records.bytes.now k))) }
    {
        for (i, record) in self.all().iter().enumerate() {
            if sought.is_in(record) {
                return Some(i + 1);
            }
        }
        None
    }

    // The first record that has a die number.
    #[tactic(auto, unfolding(crate::specs::Drawer::record_of_die))]
    pub(crate) fn with_die(self, die: u32) -> Option<usize>
        ensures { result ≡ found_at (record_of_die die (lent_drawer self.entry.records)) }
    {
        self.first(&ByDie(die))
    }

    // The first record that has the layout of a given one.
    #[tactic(auto, unfolding(crate::specs::Drawer::record_of))]
    pub(crate) fn with_layout(self, filed: &Record) -> Option<usize>
        ensures { result ≡ found_at (record_of (filed_in filed.now).layout (lent_drawer self.entry.records)) }
    {
        self.first(&ByLayout(filed))
    }
}

// What a record is looked for by.
trait Sought {
    ghost has: { Self → Filed → Bool };

    fn is_in(&self, filed: &Record) -> bool
        ensures { result ≡ has self.now (filed_in filed.now) };
}

// A die number.
#[derive(Drop)]
struct ByDie(u32);

impl Sought for ByDie {
    ghost has = { λ die. has_die die.0 };

    #[tactic(auto, unfolding(crate::specs::Drawer::has_die))]
    fn is_in(&self, filed: &Record) -> bool {
        die_of(filed) == self.0
    }
}

// The layout of a record, whatever its die.
#[derive(Drop)]
struct ByLayout<'a>(&'a Record);

impl Sought for ByLayout<'_> {
    ghost has = { λ given. has_layout (filed_in given.0.now).layout };

    #[tactic(auto, unfolding(crate::specs::Drawer::has_layout))]
    fn is_in(&self, filed: &Record) -> bool {
        same_layout(filed, self.0)
    }
}
