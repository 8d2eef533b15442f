// The program's loop: a turn answers a line, or reads a block.
ghost use Rattle.std.specs.Prelude.{◌≡◌, length, IfOk, IfSome};
ghost use Rattle.console.specs.Input.{Within};

use crate::commands;
use crate::commands::{Answer, Lent};
use console::faults::Fault;
use console::input::Input;
use console::{faults, input, output};
use memchr::memchr;
use std::io;
use std::io::{Read, Write};
use text::{line_words, numerals};

#[derive(Clone, Copy)]
pub struct Progress {
    // lines answered
    pub lines: u64,
    pub lent: Lent,
    // the start of the line was passed over
    pub long: bool,
}

#[derive(Clone, Copy)]
pub struct State {
    pub input: Input,
    pub progress: Progress,
}

impl State {
    // Nothing read, all of both areas lent.
    fn new() -> State
        ensures { (result.input.from ≡ 0) × (result.input.end ≡ 0) }
    {
        State {
            input: Input {
                from: 0,
                end: 0,
                ended: false,
            },
            progress: Progress {
                lines: 0,
                lent: Lent {
                    records: usize::MAX,
                    bodies: usize::MAX,
                },
                long: false,
            },
        }
    }
}

// The line without the carriage return at its end.
fn without_return(line: &[u8]) -> &[u8] {
    match line {
        [text @ .., b'\r'] => text,
        _ => line,
    }
}

// Empty lines and lines that begin with # are not answered.
fn is_silent(line: &[u8]) -> bool {
    matches!(line, [b'#', ..]) || line_words::ended(line, 0)
}

// Answers one line, given without its newline.
fn answer<W: Write>(
    writer: &mut W,
    records: &mut [u8],
    bodies: &mut [u8],
    line: &[u8],
    out: &mut [u8],
    p: Progress,
) -> io::Result<Progress> {
    let mut after = Progress {
        lines: p.lines.wrapping_add(1),
        long: false,
        ..p
    };
    let text = without_return(line);
    if !p.long && is_silent(text) {
        return Ok(after);
    }
    let answered = if p.long {
        Err(Fault::LongLine)
    } else {
        commands::run(records, bodies, p.lent, text, out)
    };
    let n = match answered {
        Ok(Answer::Line(n)) => n,
        Ok(Answer::Lend(lent)) => {
            after.lent = lent;
            numerals::put_numbers(out, &[0])
        }
        Err(fault) => faults::put_error(out, after.lines, fault),
    };
    output::write_line(writer, out, n)?;
    Ok(after)
}

// Answers the next line that is in the buffer whole, or reads a block. The input has ended: what is left is a line without a newline, or nothing, and no
// turn follows.
fn turn<R: Read, W: Write>(
    reader: &mut R,
    writer: &mut W,
    records: &mut [u8],
    bodies: &mut [u8],
    buffer: &mut [u8],
    out: &mut [u8],
    s: State,
) -> io::Result<Option<State>>
    requires { Within s.input (length buffer.old) }
    ensures { IfOk result (λ r. IfSome r (λ later. Within later.input (length buffer.new))) }
{
    let Input { from, end, ended } = s.input;
    if let Some(length) = memchr(b'\n', &buffer[from..end]) {
        let stop = from + length;
        let progress = answer(
            writer,
            records,
            bodies,
            &buffer[from..stop],
            out,
            s.progress,
        )?;
        return Ok(Some(State {
            input: s.input.behind(stop + 1),
            progress,
        }));
    }
    if ended {
        if s.progress.long || from < end {
            answer(writer, records, bodies, &buffer[from..end], out, s.progress)?;
        }
        return Ok(None);
    }
    if end - from == buffer.len() {
        // one line fills the buffer: it is passed over, and its end will be answered with an error
        return Ok(Some(State {
            input: s.input.behind(end),
            progress: Progress {
                long: true,
                ..s.progress
            },
        }));
    }
    let input = input::more(reader, buffer, s.input)?;
    Ok(Some(State { input, ..s }))
}

// A proved loop has to end, and nothing says that an input does: the turns are counted up to a number that no run reaches.
pub fn run<R: Read, W: Write>(
    reader: &mut R,
    writer: &mut W,
    records: &mut [u8],
    bodies: &mut [u8],
    buffer: &mut [u8],
    out: &mut [u8],
) -> io::Result<()> {
    let mut s = State::new();
    for _turn in 0..u64::MAX {
        match turn(reader, writer, records, bodies, buffer, out, s)? {
            Some(later) => s = later,
            None => return Ok(()),
        }
    }
    Ok(())
}
