// What is wrong with a line, and how the program says it.
use std::fmt;
use std::fmt::Write;
use text::buffer::Text;

// The arguments that are numbers, by the names that the messages use.
#[derive(Clone, Copy)]
pub enum Name {
    Objects,
    Stamp,
    Client,
    Sequence,
    Count,
    Reader,
    Object,
    Length,
    At,
}

// The lists of signed numbers that an opening takes.
#[derive(Clone, Copy)]
pub enum List {
    Values,
    Lower,
    Upper,
}

#[derive(Clone, Copy)]
pub enum Fault {
    LongLine,
    UnknownCommand,
    TooManyWords,
    Number(Name),
    // the number's place in its list, from 1
    Value(List, u64),
    // lower bounds and no upper ones
    NoUpper,
    Body,
    Area,
    Byte,
    Beyond,
}

// An argument's name, as the README has it.
impl fmt::Display for Name {
    fn fmt<W: fmt::Write>(&self, f: &mut fmt::Formatter<W>) -> fmt::Result {
        let name = match self {
            Name::Objects => "n",
            Name::Stamp => "stamp",
            Name::Client => "client",
            Name::Sequence => "sequence",
            Name::Count => "count",
            Name::Reader => "reader",
            Name::Object => "object",
            Name::Length => "length",
            Name::At => "at",
        };
        f.write_str(name)
    }
}

// What a number of a list is called; its place follows.
impl fmt::Display for List {
    fn fmt<W: fmt::Write>(&self, f: &mut fmt::Formatter<W>) -> fmt::Result {
        let name = match self {
            List::Values => "value",
            List::Lower => "lower",
            List::Upper => "upper",
        };
        f.write_str(name)
    }
}

// What is wrong with a line.
impl fmt::Display for Fault {
    fn fmt<W: fmt::Write>(&self, f: &mut fmt::Formatter<W>) -> fmt::Result {
        match *self {
            Fault::LongLine => write!(f, "longer than 131071 bytes"),
            Fault::UnknownCommand => write!(f, "unknown command"),
            Fault::TooManyWords => write!(f, "too many words"),
            Fault::Number(name) => write!(f, "{name}: not a number from 0 to 4294967295"),
            Fault::Value(list, place) => {
                write!(
                    f,
                    "{list} {place}: not a number from -9223372036854775808 to 9223372036854775807"
                )
            }
            Fault::NoUpper => write!(f, "upper: missing"),
            Fault::Body => write!(f, "body: not pairs of hexadecimal digits, nor -"),
            Fault::Area => write!(f, "area: neither record nor body"),
            Fault::Byte => write!(f, "byte: not a number from 0 to 255"),
            Fault::Beyond => write!(f, "at: beyond the area's end"),
        }
    }
}

// The error line of the line of this number.
pub fn put_error(out: &mut [u8], line_number: u64, fault: Fault) -> usize {
    let mut line = Text { out, end: 0 };
    // no write fails, since what does not fit is left out
    let _ = write!(line, "error {line_number}: {fault}");
    line.end
}
