// One record of 2,048 bytes: its fields as they stand there, what reading it finds, and whether two records say the same.
ghost use Rattle.std.specs.Prelude.{◌≡◌, ◌++◌, ◌+◌, ◌*◌, ◌≤◌, length, take, drop, IfOk};
ghost use Rattle.maps.specs.Given.{lent};
ghost use Rattle.maps.specs.Shown.{given};
ghost use Rattle.drawer.specs.Record.{from_bytes, numbers, all_zero, filed_in, zero_byte_in, same_layout, read_record};
ghost use Rattle.drawer.specs.Answers.{reading_of};
ghost use Rattle.drawer.specs.Inside.{header_of};
ghost use Rattle.drawer.specs.declared.fields.RecordFault.TheVariants.{NoMap};

use maps::{Refusal, Table};

// How many bytes a record has.
pub(crate) const RECORD_SIZE: usize = 2048;

// The bytes of a record.
pub(crate) type Record = [u8; RECORD_SIZE];

// A filed layout, whose word stays where it stands.
#[derive(Clone, Copy, Debug, PartialEq, Eq)]
pub struct Layout {
    pub die: u32,
    pub n: usize,
    pub m: usize,
}

// Why a record is no filed layout: the first of its faults.
#[derive(Clone, Copy, Debug, PartialEq, Eq)]
pub enum RecordFault {
    Dimension,
    Size,
    NoDie,
    ZeroByte,
    Filling,
    // The word is no accepted map: what the check refuses it for, 5 to 9.
    NoMap(Refusal),
    // The word is an accepted map, and not its own signature.
    OtherWord,
}

impl From<Refusal> for RecordFault {
    ghost from_gives = { λ refusal result. result ≡ NoMap refusal };

    fn from(refusal: Refusal) -> RecordFault {
        RecordFault::NoMap(refusal)
    }
}

// The number that 2 bytes say, little end first.
#[tactic(auto, unfolding(crate::specs::Record::from_bytes))]
fn number_at(filed: &Record, at: usize) -> u16
    requires { at + 2 ≤ RECORD_SIZE }
    ensures { result ≡ from_bytes (take 2 (drop at filed.now)) }
{
    u16::from_le_bytes([filed[at], filed[at + 1]])
}

#[tactic(auto, unfolding(crate::specs::Record::filed_in, crate::specs::Record::from_bytes))]
pub(crate) fn die_of(filed: &Record) -> u32
    ensures { result ≡ (filed_in filed.now).die }
{
    u32::from_le_bytes([filed[0], filed[1], filed[2], filed[3]])
}

#[tactic(auto, unfolding(maps::specs::Least::nth, crate::specs::Record::filed_in))]
fn dimension_of(filed: &Record) -> u8
    ensures { result ≡ (filed_in filed.now).layout.n }
{
    filed[4]
}

#[tactic(auto, unfolding(crate::specs::Record::filed_in))]
fn darts_of(filed: &Record) -> u16
    ensures { result ≡ (filed_in filed.now).layout.m }
{
    number_at(filed, 6)
}

// The byte between n and m.
#[tactic(auto, unfolding(maps::specs::Least::nth, crate::specs::Record::zero_byte_in))]
fn zero_byte_of(filed: &Record) -> u8
    ensures { result ≡ zero_byte_in filed.now }
{
    filed[5]
}

// No byte is other than 0. No branch is taken at a byte, as `iter().all` takes one, so that the machine looks at several at a time.
#[tactic(auto, using(crate::proofs::Inside::all_zero_here, crate::proofs::Inside::all_zero_past))]
fn all_zero(bytes: &[u8]) -> bool
    ensures { result ≡ all_zero bytes.now }
{
    let mut zero = true;
    for b in bytes {
        zero &= *b == 0;
    }
    zero
}

// The word is copied to the front of a list, whose rest is left as it was.
#[tactic(auto, using(crate::proofs::Inside::word_turn), unfolding(crate::specs::Record::numbers))]
pub(crate) fn read_word(filed: &Record, size: usize, word: &mut [u16])
    requires few { size ≤ 1020 }
    requires room { size ≤ length word.old }
    ensures { word.new ≡ numbers size (drop 8 filed.now) ++ drop size word.old }
{
    for i in 0..size {
        word[i] = number_at(filed, 8 + 2 * i);
    }
}

// The reading of all but the word. n and m come first, since they say where the filling starts. `small` is a clause,
// since a `Layout` with that fact in its type could not be what `header_of` makes of any bytes.
#[tactic(auto, using(crate::proofs::Inside::header_dimension, crate::proofs::Inside::header_size, crate::proofs::Inside::header_die, crate::proofs::Inside::header_byte, crate::proofs::Inside::header_filling, crate::proofs::Inside::header_whole, crate::proofs::Inside::to_the_end))]
pub(crate) fn read_header(filed: &Record) -> Result<Layout, RecordFault>
    ensures header { result ≡ header_of filed.now }
    ensures small { IfOk result (λ l. l.n * l.m ≤ 1020) }
{
    let n = usize::from(dimension_of(filed));
    if n == 0 || 4 < n {
        return Err(RecordFault::Dimension);
    }
    let m = usize::from(darts_of(filed));
    if m == 0 || 1020 < n * m {
        return Err(RecordFault::Size);
    }
    let die = die_of(filed);
    if die == 0 {
        return Err(RecordFault::NoDie);
    }
    if zero_byte_of(filed) != 0 {
        return Err(RecordFault::ZeroByte);
    }
    if !all_zero(&filed[8 + 2 * (n * m)..]) {
        return Err(RecordFault::Filling);
    }
    Ok(Layout { die, n, m })
}

// The table of a layout that a record holds: the word is copied to a list, and the table is the front of it.
pub(crate) fn filed_table<'a>(
    filed: &Record,
    layout: Layout,
    word: &'a mut [u16; 1020],
) -> Table<'a>
    requires { layout.n * layout.m ≤ 1020 }
    ensures { given result ≡ lent layout.n layout.m (numbers (layout.n * layout.m) (drop 8 filed.now)) }
{
    let Layout { n, m, .. } = layout;
    read_word(filed, n * m, word);
    Table {
        n,
        m,
        numbers: &word[..n * m],
    }
}

// The reading of a record of a drawer, whose word must be its own signature.
#[tactic(auto, using(crate::proofs::Inside::record_fault))]
pub(crate) fn read_record(filed: &Record) -> Result<Layout, RecordFault>
    ensures { reading_of result filed.now ≡ read_record filed.now }
{
    // Document 01's form: a fault goes straight back.
    let header = read_header(filed);
    let Ok(layout) = header else {
        return header;
    };
    // Document 01: fixed memory, no heap.
    let mut word = [0; 1020];
    if words::own_word(filed_table(filed, layout, &mut word))? {
        Ok(layout)
    } else {
        Err(RecordFault::OtherWord)
    }
}

// Two records have one layout. m comes first, since most records differ in it. No word goes past
// a record's end.
#[tactic(auto, using(crate::proofs::Inside::layout_parted, crate::proofs::Inside::layout_by_word))]
pub(crate) fn same_layout(first: &Record, second: &Record) -> bool
    ensures { result ≡ same_layout (filed_in first.now).layout (filed_in second.now).layout }
{
    let (n, m) = (dimension_of(second), darts_of(second));
    if darts_of(first) != m || dimension_of(first) != n {
        return false;
    }
    let size = usize::from(n) * usize::from(m);
    let end = (8 + 2 * size).min(RECORD_SIZE);
    first[8..end] == second[8..end]
}
