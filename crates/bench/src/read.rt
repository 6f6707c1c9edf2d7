// The parts of a case, read out of its line from left to right: a word, numbers, lists and maps. A part that is not there is
// `None`, and then the line is no case.
ghost use Rattle.std.specs.Prelude.{◌<◌, IfSome};

use crate::cases::{BYTES, NUMBERS};
use drawer::Records;
use maps::Table;

// What is left to read of a line.
#[derive(Clone, Copy)]
pub struct Line<'a> {
    rest: &'a [u8],
}

// A number with the digit `b` written behind it, while it is below 2^64. The cast stays: `usize` is not `From<u32>`, here as in Rust.
fn with_digit(number: usize, b: u8) -> Option<usize> {
    let digit = char::from(b).to_digit(10)?;
    number.checked_mul(10)?.checked_add(digit as usize)
}

impl<'a> Line<'a> {
    pub(crate) fn new(rest: &'a [u8]) -> Self {
        Line { rest }
    }

    // A case starts with its word, which a space ends.
    pub(crate) fn word(&mut self) -> Option<&'a [u8]> {
        let length = self.rest.iter().position(|b| *b == b' ')?;
        self.rest.split_off(..length)
    }

    // Decimal digits, at least one.
    fn digits(&mut self) -> Option<usize> {
        let length = self.rest.iter().take_while(|b| b.is_ascii_digit()).count();
        let digits = self.rest.split_off(..length)?;
        if digits.is_empty() {
            return None;
        }
        digits
            .iter()
            .try_fold(0, |number, b| with_digit(number, *b))
    }

    // A space and a number.
    pub(crate) fn number(&mut self) -> Option<usize> {
        self.rest = self.rest.strip_prefix(b" ")?;
        self.digits()
    }

    // How often the number before this place stands in its list: once, where no `*` follows it, and never 0 times.
    fn times(&mut self) -> Option<usize>
        ensures { IfSome result (λ times. 0 < times) }
    {
        let Some(rest) = self.rest.strip_prefix(b"*") else {
            return Some(1);
        };
        self.rest = rest;
        self.digits().filter(|times| *times != 0)
    }

    // A list's length and its numbers, which its runs must fill exactly. They are written to the front of the room.
    pub(crate) fn list<'b, T, const N: usize>(
        &mut self,
        room: &'b mut [T; N],
    ) -> Option<&'b mut [T]>
    where
        T: Copy + TryFrom<usize>,
        T::Error: Drop,
    {
        let length = self.number()?;
        let list = room.get_mut(..length)?;
        let mut open = &mut *list;
        // No `for`: a run says how far the list is filled next.
        while !open.is_empty() {
            let value = T::try_from(self.number()?).ok()?;
            let times = self.times()?;
            // `fill` would ask that no clone of a `T` fails, which `Copy` doesn't say.
            open.split_off_mut(..times)?.fill_with(|| value);
        }
        Some(list)
    }

    // N, M and the table.
    pub(crate) fn table<'b>(&mut self, room: &'b mut [u16; NUMBERS]) -> Option<Table<'b>> {
        Some(Table {
            n: self.number()?,
            m: self.number()?,
            numbers: self.list(room)?,
        })
    }

    // A drawer's record count and its bytes.
    pub(crate) fn records<'b>(&mut self, room: &'b mut [u8; BYTES]) -> Option<Records<'b>> {
        Some(Records {
            count: self.number()?,
            bytes: self.list(room)?,
        })
    }

    // A case is in form where its last part ends at the line's end.
    pub(crate) fn end(self) -> Option<()> {
        self.rest.is_empty().then_some(())
    }
}
