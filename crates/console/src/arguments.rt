// The arguments of a command: the words of its line, read one by one.
ghost use Rattle.std.specs.Prelude.{◌≤◌, IfOk};
ghost use Rattle.console.specs.Words.{NextWord};

use crate::faults::{Fault, List, Name};
use text::{line_words, numbers};

// What is left of a line whose words are read.
#[derive(Clone, Copy)]
pub struct Words<'a> {
    pub left: &'a [u8],
}

// How a list of signed numbers ended, and how many it has.
#[derive(Clone, Copy)]
pub enum ValueList {
    // at the line's end
    Ended(usize),
    // at the next list's name
    Word(usize),
}

// Does a word end a list? The next list's name does; the last list has none behind it.
fn ends(list: List, word: &[u8]) -> bool {
    match list {
        List::Values => line_words::place(b"lower", word).is_ok(),
        List::Lower => line_words::place(b"upper", word).is_ok(),
        List::Upper => false,
    }
}

impl<'a> Words<'a> {
    // The next word, which is passed, if there is one.
    pub fn next(&mut self) -> Option<&'a [u8]>
        ensures { NextWord self.old.left.now result self.new.left.now }
    {
        let line = self.left;
        let w = line_words::next(line, 0);
        if w.from == w.to {
            return None;
        }
        self.left = &line[w.to..];
        Some(&line[w.from..w.to])
    }

    // No further word is wanted.
    pub fn end(&self) -> Result<(), Fault> {
        if line_words::ended(self.left, 0) {
            Ok(())
        } else {
            Err(Fault::TooManyWords)
        }
    }

    // A number that is not above `most`, or else a fault.
    fn unsigned(&mut self, most: u64, fault: Fault) -> Result<u64, Fault>
        ensures { IfOk result (λ n. n ≤ most) }
    {
        let word = self.next().ok_or(fault)?;
        numbers::unsigned(word, most).ok_or(fault)
    }

    // A number of 32 bits.
    pub fn number(&mut self, name: Name) -> Result<u32, Fault> {
        let n = self.unsigned(u64::from(u32::MAX), Fault::Number(name))?;
        Ok(n as u32)
    }

    // A number that is the line's last word.
    pub fn last_number(&mut self, name: Name) -> Result<u32, Fault> {
        let n = self.number(name)?;
        self.end()?;
        Ok(n)
    }

    // Two numbers, one behind the other; the first wrong one is told.
    pub fn two_numbers(&mut self, first: Name, second: Name) -> Result<(u32, u32), Fault> {
        let a = self.number(first)?;
        let b = self.number(second)?;
        Ok((a, b))
    }

    // Two numbers that are the line's last words.
    pub fn last_two_numbers(&mut self, first: Name, second: Name) -> Result<(u32, u32), Fault> {
        let both = self.two_numbers(first, second)?;
        self.end()?;
        Ok(both)
    }

    // A byte's number that is the line's last word.
    pub fn last_byte(&mut self) -> Result<u8, Fault> {
        let n = self.unsigned(255, Fault::Byte)?;
        self.end()?;
        Ok(n as u8)
    }

    // The signed numbers of a list up to the next list's name, which is passed, or to the line's end, put at the start of out; those that do not fit
    // are counted alone.
    pub fn values(&mut self, list: List, out: &mut [i64]) -> Result<ValueList, Fault> {
        let mut count = 0;
        while let Some(word) = self.next() {
            if ends(list, word) {
                return Ok(ValueList::Word(count));
            }
            let v = numbers::signed(word).ok_or(Fault::Value(list, count as u64 + 1))?;
            if count < out.len() {
                out[count] = v;
            }
            count += 1;
        }
        Ok(ValueList::Ended(count))
    }
}
