// The labelling of a map, the darts that it reaches, and the plain check of a dart table. Arrays of 1,020 numbers are locals, or lent:
// document 01 wants fixed memory.
#![tactic(auto)]

ghost use Rattle.std.specs.Prelude.{◌≡◌, ◌≤◌, length, take, replicate};
ghost use Rattle.maps.specs.Least.{found_at};
ghost use Rattle.maps.specs.Map.{IsDart, sew};
ghost use Rattle.maps.specs.Accepted.{ToDarts};
ghost use Rattle.maps.specs.Given.{map_of, Shaped};
ghost use Rattle.maps.specs.Answer.{backs_of};
ghost use Rattle.maps.specs.Shown.{given, verdict_of};
ghost use Rattle.labels.specs.Queue.{visit, serve, labelling};
ghost use Rattle.labels.specs.Judging.{not_reached, check_answer, Judges};
ghost use Rattle.labels.specs.Inside.{Labels, Holds, Meets, Serves, IsRow, not_labelled};

use maps::{Output, Refusal, Table};

// A table that rules 1 to 8 have passed, with β0 of each dart. `words` has the like of what 1 to 9 have passed: no public function may ask
// for either, so each crate has its own, and reads rows by itself.
#[derive(Clone, Copy)]
struct SewnTable<'a> {
    table: Table<'a>,
    back: &'a [u16; 1020],
    ghost shaped: { Shaped (given table) },
    ghost within: { ToDarts (map_of (given table)) },
    ghost backs: { back.now ≡ backs_of (map_of (given table)) },
}

// The labelling under way: how many labels are given. It is passed by value, so the arrays of labels and queue are locals that its
// methods are lent: in it they would be copied at each dart.
#[derive(Clone, Copy)]
struct Labelling {
    given: usize,
}

impl Labelling {
    // A dart is met: it gets the next label where it has none. 0 is no dart.
    fn meet(self, labels: &mut [u16; 1020], queue: &mut [u16; 1020], e: u16) -> Labelling
        requires { Meets labels.old queue.old self.given e }
        ensures { Holds labels.new queue.new result.given (visit (take self.given queue.old) e) }
    {
        if e == 0 {
            return self;
        }
        let at = usize::from(e) - 1;
        if labels[at] != 0 {
            return self;
        }
        let given = self.given;
        // `as` and no `try_from`: there are at most 1,020 labels, so nothing else is to be answered.
        labels[at] = (given + 1) as u16;
        queue[given] = e;
        Labelling { given: given + 1 }
    }

    // A dart is served: it meets β0, β1, .. βn of itself.
    fn serve(
        self,
        map: SewnTable<'_>,
        labels: &mut [u16; 1020],
        queue: &mut [u16; 1020],
        d: u16,
    ) -> Labelling
        requires { Serves (given map.table) d labels.old queue.old self.given }
        ensures { Holds labels.new queue.new result.given (serve (map_of (given map.entry.table)) (take self.given queue.old) d) }
    {
        let mut labelling = self.meet(labels, queue, map.before(d));
        for e in map.row(d) {
            labelling = labelling.meet(labels, queue, *e);
        }
        labelling
    }
}

// A dart stays a number, which `requires` bounds: a type of it would carry the map to each place of the queue.
impl<'a> SewnTable<'a> {
    // β0 of a dart.
    fn before(self, d: u16) -> u16
        requires { IsDart (map_of (given self.table)) d }
        ensures { result ≡ sew (map_of (given self.entry.table)) 0 d }
    {
        self.back[usize::from(d) - 1]
    }

    // β1, .. βn of a dart: its row of the table.
    fn row(self, d: u16) -> &'a [u16]
        requires { IsDart (map_of (given self.table)) d }
        ensures { IsRow (given self.entry.table) d result.now }
    {
        let start = (usize::from(d) - 1) * self.table.n;
        &self.table.numbers[start..start + self.table.n]
    }

    // The labelling from dart 1, run to its end, and how many labels it gives.
    fn reach(self, labels: &mut [u16; 1020]) -> usize
        requires { labels.old ≡ replicate 1020 0 }
        ensures labels { Labels labels.new (labelling (map_of (given self.entry.table)) 1) }
        ensures count { result ≡ length (labelling (map_of (given self.entry.table)) 1) }
    {
        let mut queue = [0; 1020];
        let mut labelling = Labelling { given: 0 }.meet(labels, &mut queue, 1);
        // No `for`: the queue grows while its darts are served.
        let mut k = 0;
        while k < labelling.given {
            let d = queue[k];
            labelling = labelling.serve(self, labels, &mut queue, d);
            k += 1;
        }
        labelling.given
    }

    // The least dart that has no label from dart 1, of which so many are given. Where they are as many as the darts, each dart has one, and
    // none is looked for.
    fn unlabelled(self, count: usize, labels: &[u16; 1020]) -> Option<usize>
        requires labels { Labels labels.now (labelling (map_of (given self.table)) 1) }
        requires count { count ≡ length (labelling (map_of (given self.table)) 1) }
        ensures { result ≡ found_at (not_reached (map_of (given self.entry.table))) }
    {
        if count == self.table.m {
            return None;
        }
        not_labelled(&labels[..self.table.m])
    }

    // The least dart that dart 1 does not reach. No dart has a label before, and none afterwards.
    fn not_reached(self, labels: &mut [u16; 1020]) -> Option<usize>
        requires { labels.old ≡ replicate 1020 0 }
        ensures least { result ≡ found_at (not_reached (map_of (given self.entry.table))) }
        ensures blank { labels.new ≡ replicate 1020 0 }
    {
        let count = self.reach(labels);
        let dart = self.unlabelled(count, labels);
        // No other dart can have one: of a small map most of the array is left as it is.
        labels[..self.table.m].fill(0);
        dart
    }
}

// The least dart that has no label. `position` was tried, and the proof did not close: it says too little of the labels passed over.
fn not_labelled(labels: &[u16]) -> Option<usize>
    ensures { result ≡ found_at (not_labelled labels.now) }
{
    for (i, label) in labels.iter().enumerate() {
        if *label == 0 {
            return Some(i + 1);
        }
    }
    None
}

// Rules 1 to 9, in order, for whatever a caller hands in. The lent array `back` then holds β0 of each dart, at index d - 1,
// where the map is accepted, and zeros where the table is refused; `labels` is room to work in, and holds zeros afterwards.
#[tactic(auto, using(crate::proofs::Judging::nine))]
pub fn judge(
    table: Table<'_>,
    output: Output,
    back: &mut [u16; 1020],
    labels: &mut [u16; 1020],
) -> Result<(), Refusal>
    ensures { Judges output (given table.entry) result back.new labels.new }
{
    *labels = [0; 1020];
    maps::judge(table, output, back)?;
    let sewn = SewnTable { table, back };
    match sewn.not_reached(labels) {
        None => Ok(()),
        Some(dart) => {
            *back = [0; 1020];
            Err(Refusal::NotReached(dart))
        }
    }
}

// The plain check of a dart table.
#[tactic(auto, unfolding(crate::specs::Judging::check_answer))]
pub fn check(table: Table<'_>) -> Result<(), Refusal>
    ensures { verdict_of result ≡ check_answer (given table.entry) }
{
    let mut back = [0; 1020];
    let mut labels = [0; 1020];
    judge(table, Output::Nothing, &mut back, &mut labels)
}
