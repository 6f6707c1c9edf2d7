// The run of a start: the labelling from a dart, and its word judged number by number against the word held.
ghost use Rattle.std.specs.Prelude.{◌≡◌, ◌≤◌, ◌<◌, take, replicate};
ghost use Rattle.maps.specs.Shown.{given};
ghost use Rattle.labels.specs.Inside.{Meets};
ghost use Rattle.words.specs.Inside.{Met, Weighs, Weighed, leaves_at, Ready, Forgets, Raced, Tried};

use crate::map::Map;
use std::cmp::Ordering;

// The labelling under way: how many labels are given, and the label of what was met last. It is passed by value, so its methods are lent
// the arrays of labels and queue: inside it they would be copied at each dart. Labels and darts are at most 1,020, so the casts of this
// file keep them.
#[derive(Clone, Copy)]
struct Labelling {
    given: usize,
    label: usize,
}

// A start has run: how its word comes out, and how many labels it has given.
#[derive(Clone, Copy)]
struct Course {
    side: Ordering,
    given: usize,
}

impl Labelling {
    // A dart is met: it gets the next label where it has none, and its label is handed back. 0 is no dart, and has label 0.
    // A twin of `labels`' function, which no other crate may call: it asks something of its caller (docs/DECISIONS.md).
    fn meet(self, labels: &mut [u16; 1020], queue: &mut [u16; 1020], e: usize) -> Labelling
        requires { Meets labels.old queue.old self.given e }
        ensures { Met (take self.given queue.old) e labels.new queue.new result }
    {
        if e == 0 {
            return Labelling { label: 0, ..self };
        }
        let label = usize::from(labels[e - 1]);
        if label != 0 {
            return Labelling { label, ..self };
        }
        let next = self.given + 1;
        labels[e - 1] = next as u16;
        queue[self.given] = e as u16;
        Labelling {
            given: next,
            label: next,
        }
    }
}

// A number of a start that is tied is judged against the one held. Where it is less, it takes its place, unless the word held
// is firm.
// Most are equal, so that is tested first: with `cmp` the race of a signature took 4 to 6% more instructions.
#[tactic(auto, unfolding(crate::specs::Inside::side_after))]
fn compare(word: &mut [u16; 1020], p: usize, number: usize, firm: bool) -> Ordering
    requires { (p < 1020) × (number ≤ 1020) }
    ensures { Weighed word.old word.new p number Ordering.Equal firm result }
{
    let held = usize::from(word[p]);
    if number == held {
        return Ordering::Equal;
    }
    if held < number {
        return Ordering::Greater;
    }
    if !firm {
        word[p] = number as u16;
    }
    Ordering::Less
}

// A number of the start's word is judged: a start that is less stays less, and its numbers are kept. One that is greater was left.
// One test decides here: `side.then(..)` was tried, and the race took a third more instructions.
#[tactic(auto, unfolding(crate::specs::Inside::side_after, crate::specs::Inside::leaves_at))]
fn weigh(word: &mut [u16; 1020], p: usize, number: usize, side: Ordering, firm: bool) -> Ordering
    requires { Weighs p number side firm }
    ensures { Weighed word.old word.new p number side firm result }
{
    if side.is_lt() {
        word[p] = number as u16;
        return Ordering::Less;
    }
    compare(word, p, number, firm)
}

// A start is left at the first number that is greater; and where the word held is firm, at the first that is less.
#[tactic(auto, unfolding(crate::specs::Inside::leaves_at))]
fn leaves(side: Ordering, firm: bool) -> bool
    ensures { result ≡ leaves_at firm side }
{
    match side {
        Ordering::Less => firm,
        Ordering::Equal => false,
        Ordering::Greater => true,
    }
}

// The labelling from d, and the first rows of its word judged number by number against the word held, until a number decides or
// all are judged. The map is lent: copied for each start, as it would be by value, it made a match up to 3% slower.
fn race(
    map: &Map<'_>,
    labels: &mut [u16; 1020],
    queue: &mut [u16; 1020],
    word: &mut [u16; 1020],
    d: usize,
    rows: usize,
    firm: bool,
) -> Course
    requires ready { Ready (given map.now.table) d rows }
    requires blank { labels.old ≡ replicate 1020 0 }
    ensures { Raced (given map.now.table) d rows firm word.old labels.new queue.new word.new result }
{
    let n = map.table.n;
    labels[d - 1] = 1;
    queue[0] = d as u16;
    let mut labelling = Labelling { given: 1, label: 1 };
    let mut side = Ordering::Equal;
    let mut p = 0;
    'labels: for k in 0..rows {
        let served = usize::from(queue[k]);
        labelling = labelling.meet(labels, queue, usize::from(map.back[served - 1]));
        let row = (served - 1) * n;
        for e in &map.table.numbers[row..row + n] {
            labelling = labelling.meet(labels, queue, usize::from(*e));
            side = weigh(word, p, labelling.label, side, firm);
            if leaves(side, firm) {
                break 'labels;
            }
            p += 1;
        }
    }
    Course {
        side,
        given: labelling.given,
    }
}

// The labels given are forgotten, so that the next start finds none.
fn forget(labels: &mut [u16; 1020], queue: &[u16; 1020], given: usize)
    requires { Forgets labels.old queue.now given }
    ensures { labels.new ≡ replicate 1020 0 }
{
    for d in &queue[..given] {
        labels[usize::from(*d) - 1] = 0;
    }
}

// Between two starts no dart has a label.
#[derive(Drop)]
pub(crate) struct Blank {
    pub(crate) labels: [u16; 1020],
    ghost blank: { labels ≡ replicate 1020 0 },
}

impl Blank {
    pub(crate) fn new() -> Blank {
        Blank { labels: [0; 1020] }
    }
}

// So many rows of a start are tried against the word held. Where they are all and it is not left, the queue then has its darts in
// the order labelled. Map, labels, queue and word come one by one, since the calls have them as locals (document 01) and lend one
// queue or another. A word that is firm stays as it is: that is one flag of the one run, which a type for each kind would write twice.
pub(crate) fn try_start(
    map: &Map<'_>,
    blank: &mut Blank,
    queue: &mut [u16; 1020],
    word: &mut [u16; 1020],
    d: usize,
    rows: usize,
    firm: bool,
) -> Ordering
    requires { Ready (given map.now.table) d rows }
    ensures { Tried (given map.now.table) d rows firm word.old queue.new word.new result }
{
    let course = race(map, &mut blank.labels, queue, word, d, rows, firm);
    forget(&mut blank.labels, queue, course.given);
    course.side
}
