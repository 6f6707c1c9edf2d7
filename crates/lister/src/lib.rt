// The lines that the layout lister prints, of a record and of what is left at the input's end. Its arrays are locals: nothing is
// allocated.
#![tactic(auto)]

ghost use Rattle.std.specs.Prelude.{◌≡◌, [], ◌∷◌};
ghost use Rattle.maps.specs.Shown.{given};
ghost use Rattle.drawer.specs.Answers.{fault_of};
ghost use Rattle.lister.specs.Listing.{decimal, spaced, refused_word, shown_fault, accepted_line, refused_line, line_of, line_from, short_end};
ghost use Rattle.lister.specs.Answer.{PrintedAs};
ghost use Rattle.lister.specs.Inside.{text_of, IsMap};

mod line;

use drawer::{Entry, Layout, RecordFault};
pub use line::Line;
use maps::{Shown, Table};
use words::Signature;

#[tactic(auto, unfolding(crate::specs::Listing::spaced))]
fn accepted_line(die: usize, table: Table<'_>, signature: Signature) -> Line
    ensures { text_of result
        ≡ spaced (decimal die ∷ decimal table.entry.n ∷ decimal table.entry.m ∷ decimal signature.symmetries ∷ decimal signature.start ∷ []) }
{
    let mut line = Line::ending_with(signature.start);
    line.put_number(signature.symmetries);
    line.put_number(table.m);
    line.put_number(table.n);
    line.put_number(die);
    line
}

#[tactic(auto, unfolding(crate::specs::Listing::spaced, crate::specs::Listing::refused_word))]
fn refused_line(die: usize, number: usize, place: usize) -> Line
    ensures { text_of result
        ≡ spaced (decimal die ∷ refused_word ∷ decimal number ∷ decimal place ∷ []) }
{
    let mut line = Line::ending_with(place);
    line.put_number(number);
    line.put_text(b"refused ");
    line.put_number(die);
    line
}

// A short end of no bytes prints nothing.
#[tactic(auto, unfolding(crate::specs::Listing::spaced, crate::specs::Listing::short_word, crate::specs::Listing::short_end))]
fn short_line(count: usize) -> Line
    ensures { text_of result ≡ short_end count }
{
    if count == 0 {
        return Line::new();
    }
    let mut line = Line::ending_with(count);
    line.put_text(b"short ");
    line
}

// The line of a record that is refused, by the display's numbers: 14 is shown with the record's own number. The cast stays, here and below: `usize` is not
// `From<u32>`.
#[tactic(auto, unfolding(crate::specs::Listing::shown_fault, crate::specs::Listing::refused_line, drawer::specs::Answers::fault_of, maps::specs::Verdict::refused))]
fn fault_line(record_number: usize, die: usize, fault: RecordFault) -> Line
    ensures { text_of result ≡ refused_line die (shown_fault record_number (fault_of fault)) }
{
    let (number, place) = match fault {
        RecordFault::Dimension => (1, 0),
        RecordFault::Size => (2, 0),
        RecordFault::NoMap(refusal) => refusal.number_and_place(),
        RecordFault::NoDie
        | RecordFault::ZeroByte
        | RecordFault::Filling
        | RecordFault::OtherWord => (14, record_number),
    };
    refused_line(die, number as usize, place)
}

// The line of an accepted map, which the signature does not refuse.
fn table_line(die: usize, table: Table<'_>) -> Line
    requires { IsMap (given table) }
    ensures { text_of result ≡ accepted_line die (given table.entry) }
{
    let mut word = [0u16; 1020];
    let signature = words::signature(table, &mut word).unwrap();
    accepted_line(die, table, signature)
}

// The line of a record. Its bytes cannot be too few to be read.
fn record_line(record_number: usize, bytes: &[u8; 2048]) -> Line
    ensures { text_of result ≡ line_of record_number bytes.now }
{
    let mut numbers = [0u16; 1020];
    let Entry { die, reading } = drawer::read_table(bytes, &mut numbers).unwrap();
    match reading {
        Ok(Layout { n, m, .. }) => {
            let numbers = &numbers[..n * m];
            table_line(die as usize, Table { n, m, numbers })
        }
        Err(fault) => fault_line(record_number, die as usize, fault),
    }
}

// The line for bytes handed in as a record, whatever they are: `short` and their count where they are too few, nothing for none.
pub fn line_from(number: usize, bytes: &[u8]) -> Line
    ensures { PrintedAs (line_from number bytes.now) result }
{
    let Some(record) = bytes.first_chunk::<2048>() else {
        return short_line(bytes.len());
    };
    record_line(number, record)
}
