// The ten calls: a command's arguments, the call, and its answer's text, which has so many bytes. A line each: as one function over two closures they
// would be no plainer.
use console::arguments::{ValueList, Words};
use console::faults::{Fault, List, Name};
use text::buffer::Text;
use text::{buffer, hexadecimal};

// How many start values, lower bounds and upper bounds an opening's line has.
#[derive(Clone, Copy)]
struct Counts {
    values: usize,
    lower: usize,
    upper: usize,
}

// The lists of an opening of n objects. Without the word `lower` each object takes the bounds that the arrays hold already, which are the widest; one
// list of bounds without the other is a wrong line, since the library takes both.
fn lists(
    words: &mut Words,
    n: usize,
    values: &mut [i64],
    lower: &mut [i64],
    upper: &mut [i64],
) -> Result<Counts, Fault> {
    let values = match words.values(List::Values, values)? {
        ValueList::Ended(values) => {
            return Ok(Counts {
                values,
                lower: n,
                upper: n,
            });
        }
        ValueList::Word(values) => values,
    };
    let ValueList::Word(lower) = words.values(List::Lower, lower)? else {
        return Err(Fault::NoUpper);
    };
    match words.values(List::Upper, upper)? {
        // nothing but the line's end ends the last list
        ValueList::Ended(upper) | ValueList::Word(upper) => Ok(Counts {
            values,
            lower,
            upper,
        }),
    }
}

// open N STAMP V0 V1 .. [lower L0 L1 .. upper U0 U1 ..]; what the lists say together is the library's to judge.
pub fn open(
    records: &mut [u8],
    bodies: &mut [u8],
    words: &mut Words,
    out: &mut [u8],
) -> Result<usize, Fault> {
    // more than any replica takes: what does not fit is counted, and the library refuses
    let mut values = [0; 2048];
    // the widest bounds, for a line that has none
    let mut lower = [i64::MIN; 2048];
    let mut upper = [i64::MAX; 2048];
    let (n, stamp) = words.two_numbers(Name::Objects, Name::Stamp)?;
    let counts = lists(words, n as usize, &mut values, &mut lower, &mut upper)?;
    let taken = buffer::front(&values, counts.values);
    let low = buffer::front(&lower, counts.lower);
    let high = buffer::front(&upper, counts.upper);
    let r = replica::open(records, bodies, n, taken, low, high, stamp);
    Ok(console_answers::put_reply(out, r))
}

// The bytes of a body: pairs of digits, or - for none.
fn body_bytes(word: &[u8], body: &mut [u8]) -> Option<usize> {
    match word {
        b"-" => Some(0),
        _ => hexadecimal::parse(word, body),
    }
}

// early CLIENT SEQUENCE HEX
pub fn early(
    records: &mut [u8],
    bodies: &mut [u8],
    words: &mut Words,
    out: &mut [u8],
) -> Result<usize, Fault> {
    // more than a line can hold, so that the library refuses what is too long
    let mut body = [0u8; 65536];
    let (client, sequence) = words.two_numbers(Name::Client, Name::Sequence)?;
    let word = words.next().ok_or(Fault::Body)?;
    let n = body_bytes(word, &mut body).ok_or(Fault::Body)?;
    words.end()?;
    let b = buffer::front(&body, n);
    let r = replica::deliver_optimistic(records, bodies, client, sequence, b);
    Ok(console_answers::put_reply(out, r))
}

// work COUNT
pub fn work(
    records: &mut [u8],
    bodies: &[u8],
    words: &mut Words,
    out: &mut [u8],
) -> Result<usize, Fault> {
    let count = words.last_number(Name::Count)?;
    let r = replica::execute(records, bodies, count);
    Ok(console_answers::put_execution(out, r))
}

// final CLIENT SEQUENCE
pub fn final_delivery(
    records: &mut [u8],
    bodies: &mut [u8],
    words: &mut Words,
    out: &mut [u8],
) -> Result<usize, Fault> {
    let (client, sequence) = words.last_two_numbers(Name::Client, Name::Sequence)?;
    let r = replica::deliver_final(records, bodies, client, sequence);
    Ok(console_answers::put_delivery(out, r))
}

// reader R
pub fn reader(
    records: &mut [u8],
    bodies: &[u8],
    words: &mut Words,
    out: &mut [u8],
) -> Result<usize, Fault> {
    let reader = words.last_number(Name::Reader)?;
    let r = replica::open_reader(records, bodies, reader);
    Ok(console_answers::put_reply(out, r))
}

// read R OBJECT
pub fn read(
    records: &[u8],
    bodies: &[u8],
    words: &mut Words,
    out: &mut [u8],
) -> Result<usize, Fault> {
    let (reader, object) = words.last_two_numbers(Name::Reader, Name::Object)?;
    let r = replica::read(records, bodies, reader, object);
    Ok(console_answers::put_reading(out, r))
}

// close R
pub fn close(
    records: &mut [u8],
    bodies: &[u8],
    words: &mut Words,
    out: &mut [u8],
) -> Result<usize, Fault> {
    let reader = words.last_number(Name::Reader)?;
    let r = replica::close_reader(records, bodies, reader);
    Ok(console_answers::put_reply(out, r))
}

// find CLIENT SEQUENCE
pub fn find(
    records: &[u8],
    bodies: &[u8],
    words: &mut Words,
    out: &mut [u8],
) -> Result<usize, Fault> {
    let (client, sequence) = words.last_two_numbers(Name::Client, Name::Sequence)?;
    let r = replica::find(records, bodies, client, sequence);
    Ok(console_answers::put_finding(out, r))
}

// show CLIENT SEQUENCE
pub fn show(
    records: &[u8],
    bodies: &[u8],
    words: &mut Words,
    out: &mut [u8],
) -> Result<usize, Fault> {
    let (client, sequence) = words.last_two_numbers(Name::Client, Name::Sequence)?;
    let body = replica::show_body(records, bodies, client, sequence);
    let mut line = Text { out, end: 0 };
    hexadecimal::put(&mut line, body);
    Ok(line.end)
}

// dry CLIENT SEQUENCE
pub fn dry(
    records: &[u8],
    bodies: &[u8],
    words: &mut Words,
    out: &mut [u8],
) -> Result<usize, Fault> {
    let (client, sequence) = words.last_two_numbers(Name::Client, Name::Sequence)?;
    let r = replica::dry_run(records, bodies, client, sequence);
    Ok(console_answers::put_preview(out, r))
}
