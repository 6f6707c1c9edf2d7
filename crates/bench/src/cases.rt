// The cases of tests/CASES.md, and the answer to each. `None` stands for a line that has not the form of a case.
use crate::print;
use crate::read::Line;
use std::io;
use std::io::Write;

// A table may have more numbers than the 1,020 of the longest map, and is then judged all the same.
pub const NUMBERS: usize = 2048;

// The bytes of a full drawer and of one record more.
pub const BYTES: usize = 1025 * 2048;

// Where a case's lists are kept while it is answered. It goes beside the line, since one value of both couldn't lend two lists at once.
#[derive(Drop)]
pub struct Room {
    pub table: [u16; NUMBERS],
    pub second: [u16; NUMBERS],
    pub list: [u16; NUMBERS],
    pub bytes: [u8; BYTES],
}

// The cases are alike, and stay a function each: they differ in the parts that they read and in the call, which is what each says.
// The output, the line and the room stay three parameters: a struct of them would be taken apart in each case.

// `check N M TABLE`.
fn check(out: &mut impl Write, mut line: Line<'_>, room: &mut Room) -> Option<io::Result<()>> {
    let table = line.table(&mut room.table)?;
    line.end()?;
    let checked = labels::check(table).map(|()| []);
    Some(print::numbers_line(out, checked))
}

// `sign N M TABLE OUTPUT`.
fn sign(out: &mut impl Write, mut line: Line<'_>, room: &mut Room) -> Option<io::Result<()>> {
    let table = line.table(&mut room.table)?;
    let output = line.list(&mut room.list)?;
    line.end()?;
    let signed = words::signature(table, output).map(|word| [word.start, word.symmetries]);
    Some(print::numbers_and_list_line(out, signed, output))
}

// `match N M TABLE N2 M2 TABLE2 OUTPUT`.
fn match_maps(out: &mut impl Write, mut line: Line<'_>, room: &mut Room) -> Option<io::Result<()>> {
    let first = line.table(&mut room.table)?;
    let second = line.table(&mut room.second)?;
    let output = line.list(&mut room.list)?;
    line.end()?;
    let matched = words::match_maps(first, second, output).map(|()| []);
    Some(print::numbers_and_list_line(out, matched, output))
}

// `judge N M TABLE N2 M2 TABLE2 LIST`.
fn judge(out: &mut impl Write, mut line: Line<'_>, room: &mut Room) -> Option<io::Result<()>> {
    let first = line.table(&mut room.table)?;
    let second = line.table(&mut room.second)?;
    let list = line.list(&mut room.list)?;
    line.end()?;
    let judged = matches::judge_list(first, second, list).map(|()| []);
    Some(print::numbers_line(out, judged))
}

// `drawer COUNT BYTES`.
fn check_drawer(
    out: &mut impl Write,
    mut line: Line<'_>,
    room: &mut Room,
) -> Option<io::Result<()>> {
    let records = line.records(&mut room.bytes)?;
    line.end()?;
    let checked = drawer::check_drawer(records).map(|()| []);
    Some(print::numbers_line(out, checked))
}

// `find N M TABLE COUNT BYTES`.
fn find(out: &mut impl Write, mut line: Line<'_>, room: &mut Room) -> Option<io::Result<()>> {
    let table = line.table(&mut room.table)?;
    let records = line.records(&mut room.bytes)?;
    line.end()?;
    // The cast stays: `usize` is not `From<u32>`.
    let found = drawer::search_drawer(table, records).map(|found| [found.die as usize, found.at]);
    Some(print::numbers_line(out, found))
}

// `record N M TABLE COUNT BYTES`.
fn record(out: &mut impl Write, mut line: Line<'_>, room: &mut Room) -> Option<io::Result<()>> {
    let table = line.table(&mut room.table)?;
    let records = line.records(&mut room.bytes)?;
    line.end()?;
    Some(print::list_line(out, drawer::found(table, records)))
}

// `add DIE N M TABLE COUNT BYTES`.
fn add(out: &mut impl Write, mut line: Line<'_>, room: &mut Room) -> Option<io::Result<()>> {
    let die = u32::try_from(line.number()?).ok()?;
    let table = line.table(&mut room.table)?;
    let count = line.number()?;
    let bytes = line.list(&mut room.bytes)?;
    line.end()?;
    let filed = drawer::file_layout(die, table, count, bytes).map(|count| [count]);
    Some(print::numbers_and_list_line(out, filed, bytes))
}

pub(crate) fn answer(out: &mut impl Write, line: &[u8], room: &mut Room) -> Option<io::Result<()>> {
    let mut line = Line::new(line);
    match line.word()? {
        b"check" => check(out, line, room),
        b"sign" => sign(out, line, room),
        b"match" => match_maps(out, line, room),
        b"judge" => judge(out, line, room),
        b"drawer" => check_drawer(out, line, room),
        b"find" => find(out, line, room),
        b"record" => record(out, line, room),
        b"add" => add(out, line, room),
        _ => None,
    }
}
