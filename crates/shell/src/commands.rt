// A command's name, and where each goes.
use crate::{areas, calls};
use console::arguments::Words;
use console::faults::Fault;
use text::line_words;

// How many bytes of each area later calls are lent, at most.
#[derive(Clone, Copy)]
pub struct Lent {
    pub records: usize,
    pub bodies: usize,
}

#[derive(Clone, Copy)]
pub enum Answer {
    // so many bytes at the start of the output buffer
    Line(usize),
    Lend(Lent),
}

// The commands' names: each goes by its place among them.
const NAMES: &[u8] = b"open early work final reader read close find show dry dump lend poke";

// Runs a command that sees the lent bytes alone, and answers how many bytes its line has.
fn on_lent(
    records: &mut [u8],
    bodies: &mut [u8],
    place: usize,
    words: &mut Words,
    out: &mut [u8],
) -> Result<usize, Fault> {
    match place {
        0 => calls::open(records, bodies, words, out),
        1 => calls::early(records, bodies, words, out),
        2 => calls::work(records, bodies, words, out),
        3 => calls::final_delivery(records, bodies, words, out),
        4 => calls::reader(records, bodies, words, out),
        5 => calls::read(records, bodies, words, out),
        6 => calls::close(records, bodies, words, out),
        7 => calls::find(records, bodies, words, out),
        8 => calls::show(records, bodies, words, out),
        9 => calls::dry(records, bodies, words, out),
        10 => areas::dump(records, bodies, words, out),
        _ => Err(Fault::UnknownCommand),
    }
}

// Runs the command that a line holds. A call is lent as many bytes of each area as `lend` said.
pub fn run(
    records: &mut [u8],
    bodies: &mut [u8],
    lent: Lent,
    line: &[u8],
    out: &mut [u8],
) -> Result<Answer, Fault> {
    let mut words = Words { left: line };
    let name = words.next().ok_or(Fault::UnknownCommand)?;
    let place = line_words::place(NAMES, name).map_err(|_| Fault::UnknownCommand)?;
    match place {
        11 => areas::lend(lent, &mut words),
        12 => areas::poke(records, bodies, &mut words, out),
        _ => {
            let a = lent.records.min(records.len());
            let b = lent.bodies.min(bodies.len());
            let n = on_lent(&mut records[..a], &mut bodies[..b], place, &mut words, out)?;
            Ok(Answer::Line(n))
        }
    }
}
