// Reads cases from standard input, in the form of tests/CASES.md, and prints the line of each.
// It answers every call there. A line that is malformed or longer than 131,072 bytes, a list of more than 2,048 numbers, and a
// drawer of more bytes than 1,025 records have print `?`.
#![tactic(auto)]

ghost use Rattle.std.specs.Prelude.{◌≤◌};

mod cases;
mod print;
mod read;

use arrayvec::ArrayVec;
use cases::{BYTES, NUMBERS, Room};
use std::io;
use std::io::{Input, Read, Write};

// The line that is under way in the input. A fixed buffer holds it, since the program allocates nothing; the flag stands beside it,
// since an `Option` would have the whole buffer made anew after each line that is too long.
#[derive(Drop)]
struct UnderWay {
    bytes: ArrayVec<u8, 131072>,
    is_whole: bool,
}

impl UnderWay {
    fn new() -> Self {
        UnderWay {
            bytes: ArrayVec::new(),
            is_whole: true,
        }
    }

    // What does not fit is left out.
    fn push(&mut self, bytes: &[u8]) {
        self.is_whole &= self.bytes.try_extend_from_slice(bytes).is_ok();
    }

    // The line, where all of it fitted.
    fn line(&self) -> Option<&[u8]> {
        self.is_whole.then_some(self.bytes.as_slice())
    }

    fn is_empty(&self) -> bool {
        self.is_whole && self.bytes.is_empty()
    }

    fn clear(&mut self) {
        self.bytes.clear();
        self.is_whole = true;
    }
}

// An empty line and a line that starts with `#` are copied.
fn answer(out: &mut impl Write, line: &[u8], room: &mut Room) -> io::Result<()> {
    if let [] | [b'#', ..] = line {
        out.write_all(line)?;
        return out.write_all(b"\n");
    }
    cases::answer(out, line, room).unwrap_or_else(|| print::refuse(out))
}

// A line at its end.
fn end_line(out: &mut impl Write, under_way: &UnderWay, room: &mut Room) -> io::Result<()> {
    match under_way.line() {
        Some(line) => answer(out, line, room),
        None => print::refuse(out),
    }
}

fn take_bytes(
    out: &mut impl Write,
    under_way: &mut UnderWay,
    room: &mut Room,
    bytes: &[u8],
) -> io::Result<()> {
    for part in bytes.split_inclusive(|b| *b == b'\n') {
        let Some(last) = part.strip_suffix(b"\n") else {
            under_way.push(part);
            break;
        };
        under_way.push(last);
        end_line(out, under_way, room)?;
        under_way.clear();
    }
    Ok(())
}

// Takes what the first reading gave, and all further ones. Nothing says that the input ends, so the readings are counted up to a number
// that no run uses up. It stays a call: inside `main` the room would be there for an empty input too.
#[inline(never)]
fn take_all(
    out: &mut impl Write,
    input: &mut impl Read,
    bytes: &mut [u8; 65536],
    first: usize,
) -> io::Result<()>
    requires { first ≤ 65536 }
{
    let mut room = Room {
        table: [0; NUMBERS],
        second: [0; NUMBERS],
        list: [0; NUMBERS],
        bytes: [0; BYTES],
    };
    let mut under_way = UnderWay::new();
    take_bytes(out, &mut under_way, &mut room, &bytes[..first])?;
    for _ in 0..u64::MAX {
        let count = input.read(bytes)?;
        if count == 0 {
            break;
        }
        take_bytes(out, &mut under_way, &mut room, &bytes[..count])?;
    }
    // The last line may lack its newline.
    if !under_way.is_empty() {
        end_line(out, &under_way, &mut room)?;
    }
    Ok(())
}

// A reading or a writing that fails ends the program with its error.
fn main(rt: HostRuntime) -> io::Result<()> {
    // What one reading gives: a fixed buffer, since the program allocates nothing.
    let mut bytes = [0u8; 65536];
    let input = &mut rt.reader();
    let first = input.read(&mut bytes)?;
    // An empty input needs no room for cases, which has 2 MB.
    if first == 0 {
        return Ok(());
    }
    take_all(&mut io::writer(&rt), input, &mut bytes, first)
}
