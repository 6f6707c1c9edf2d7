// The lines that are printed, each number as soon as it is there.
use maps::Shown;
use std::fmt::Display;
use std::io;
use std::io::Write;

// The line of a case that is not answered.
pub(crate) fn refuse(out: &mut impl Write) -> io::Result<()> {
    out.write_all(b"?\n")
}

// The number and the place that the display shows, and the answer's own numbers. A refusal has none of these, and 0 is printed for each.
fn numbers<E: Shown + Drop, const K: usize>(
    out: &mut impl Write,
    answer: Result<[usize; K], E>,
) -> io::Result<()> {
    let ((number, place), own) = match answer {
        Ok(own) => ((0, 0), own),
        Err(refusal) => (refusal.number_and_place(), [0; K]),
    };
    write!(out, "{number} {place}")?;
    for x in own {
        write!(out, " {x}")?;
    }
    Ok(())
}

// A list, which is its length and its numbers, and the line's end. Of four or more equal numbers in a row, one is printed, and how
// many they are.
pub(crate) fn list_line<T: Display + PartialEq>(
    out: &mut impl Write,
    list: &[T],
) -> io::Result<()> {
    write!(out, "{}", list.len())?;
    for run in list.chunk_by(|x, y| x == y) {
        let times = run.len();
        match run {
            [value, _, _, _, ..] => write!(out, " {value}*{times}")?,
            few => {
                for x in few {
                    write!(out, " {x}")?;
                }
            }
        }
    }
    out.write_all(b"\n")
}

// The line of an answer that is numbers alone.
pub(crate) fn numbers_line<E: Shown + Drop, const K: usize>(
    out: &mut impl Write,
    answer: Result<[usize; K], E>,
) -> io::Result<()> {
    numbers(out, answer)?;
    out.write_all(b"\n")
}

// The line of an answer that is numbers, and beside them what a lent buffer holds then.
pub(crate) fn numbers_and_list_line<E: Shown + Drop, T: Display + PartialEq, const K: usize>(
    out: &mut impl Write,
    answer: Result<[usize; K], E>,
    left: &[T],
) -> io::Result<()> {
    numbers(out, answer)?;
    out.write_all(b" ")?;
    list_line(out, left)
}
