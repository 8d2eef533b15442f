// The commands on the areas themselves: lend, poke and dump.
use crate::commands::{Answer, Lent};
use console::arguments::Words;
use console::faults::{Fault, Name};
use text::buffer::Text;
use text::{hexadecimal, line_words, numerals};

#[derive(Clone, Copy)]
enum Area {
    Record,
    Body,
}

impl Area {
    // What belongs to this one of both areas.
    fn of<T: Drop>(self, records: T, bodies: T) -> T {
        match self {
            Area::Record => records,
            Area::Body => bodies,
        }
    }
}

// The area that the next word names.
fn named(words: &mut Words) -> Result<Area, Fault> {
    let name = words.next().ok_or(Fault::Area)?;
    match line_words::place(b"record body", name) {
        Ok(0) => Ok(Area::Record),
        Ok(1) => Ok(Area::Body),
        _ => Err(Fault::Area),
    }
}

// `lend`: later calls are lent so many bytes of an area, at most all, and as many of the other as before.
pub fn lend(lent: Lent, words: &mut Words) -> Result<Answer, Fault> {
    let area = named(words)?;
    let n = words.last_number(Name::Length)? as usize;
    let later = match area {
        Area::Record => Lent { records: n, ..lent },
        Area::Body => Lent { bodies: n, ..lent },
    };
    Ok(Answer::Lend(later))
}

// `poke`: changes one byte of a whole area, however much of it is lent; an index beyond the area's end is a wrong line.
pub fn poke(
    records: &mut [u8],
    bodies: &mut [u8],
    words: &mut Words,
    out: &mut [u8],
) -> Result<Answer, Fault> {
    let area = named(words)?.of(records, bodies);
    let i = words.number(Name::At)? as usize;
    let byte = words.last_byte()?;
    if area.len() <= i {
        return Err(Fault::Beyond);
    }
    area[i] = byte;
    Ok(Answer::Line(numerals::put_numbers(out, &[0])))
}

// `dump`: the lent bytes of an area as digits.
pub fn dump(
    records: &[u8],
    bodies: &[u8],
    words: &mut Words,
    out: &mut [u8],
) -> Result<usize, Fault> {
    let area = named(words)?.of(records, bodies);
    words.end()?;
    let mut line = Text { out, end: 0 };
    hexadecimal::put(&mut line, area);
    Ok(line.end)
}
