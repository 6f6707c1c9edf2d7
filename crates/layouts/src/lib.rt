// The layout lister: reads records from standard input and prints the line of each when it is complete. One record is held.
#![tactic(auto)]

ghost use Rattle.std.specs.Prelude.{pos};
ghost use Rattle.std.specs.Process.{exit_status};
ghost use Rattle.layouts.specs.Reading.{Counted, Stepped, Status};

mod fault;
mod progress;

use fault::Fault;
pub use progress::Progress;
use std::io::{Input, Read};
use std::process::ExitCode;

// Prints the line for bytes handed in as a record. It is handed to the system at once.
fn print(rt: &impl Print, number: usize, bytes: &[u8]) -> Result<(), Fault> {
    let line = lister::line_from(number, bytes);
    rt.write_all(&line.bytes[line.start..])
        .map_err(|_| Fault::Unwritten)
}

// Reads once, whatever count comes, and prints the line of a record that is complete with it. At the input's end nothing is read.
// The output, the input and the buffer stay parameters: a struct of three borrows would be no plainer, and `finish` reads nothing.
fn take_some(
    rt: &impl Print,
    input: &mut impl Read,
    buffer: &mut [u8; 2048],
    progress: Progress,
) -> Result<Option<Progress>, Fault>
    requires { Counted progress }
    ensures { Stepped progress result }
{
    let count = input
        .read(&mut buffer[progress.bytes..])
        .map_err(|_| Fault::Unread)?;
    if count == 0 {
        return Ok(None);
    }
    let next = progress.add(count);
    if next.bytes == 0 {
        print(rt, next.records, buffer)?;
    }
    Ok(Some(next))
}

// What is left at the end of the input is a short end, and prints nothing where it is empty.
fn finish(rt: &impl Print, buffer: &[u8; 2048], progress: Progress) -> Result<(), Fault>
    requires { Counted progress }
{
    print(rt, progress.records + 1, &buffer[..progress.bytes])
}

// Reads the whole input and prints each line. Nothing says that the input ends, so the readings are counted up to a number that no
// run uses up.
fn list(rt: &impl Print, input: &mut impl Read, buffer: &mut [u8; 2048]) -> Result<(), Fault> {
    let mut progress = Progress::start();
    for _ in 0..u64::MAX {
        let Some(further) = take_some(rt, input, buffer, progress)? else {
            return finish(rt, buffer, progress);
        };
        progress = further;
    }
    Err(Fault::Endless)
}

// The whole program, but for its start: the status with which it is to end. What went wrong is said on standard error, if that can
// be said at all.
pub fn layouts_run(rt: &(impl Input + Print + Eprint)) -> ExitCode
    ensures { Status (pos (exit_status result)) }
{
    // One record is held, and nothing is allocated.
    let mut buffer = [0u8; 2048];
    match list(rt, &mut rt.reader(), &mut buffer) {
        Ok(()) => ExitCode::SUCCESS,
        // No fault of the input or of the output, so nothing is said.
        Err(Fault::Endless) => ExitCode::FAILURE,
        Err(fault) => {
            let _ = rt.eprintln(fault);
            ExitCode::FAILURE
        }
    }
}
