// Numbers put into a line as decimal numerals, and lines of them.
ghost use Rattle.text.specs.Buffer.{Puts};
ghost use Rattle.text.specs.Numerals.{unsigned_numeral, numeral, Follows, Line};
ghost use Rattle.std.specs.Prelude.{◌∷◌};

use crate::buffer::Text;
use crate::numbers;

impl Text<'_> {
    // A number of 64 bits.
    pub fn put_unsigned(&mut self, n: u64)
        ensures { Puts self.old (unsigned_numeral n) self.new }
    {
        let mut text = [0u8; 20];
        let k = io::decimal(n, &mut text);
        self.put(&text[..k]);
    }

    // The same for a signed number: below 0 a minus sign and its distance from 0.
    pub fn put_signed(&mut self, v: i64)
        ensures { Follows self.old (numeral v) self.new }
    {
        let distance = numbers::magnitude(v);
        if v < 0 {
            self.put(b"-");
        }
        self.put_unsigned(distance);
    }

    // A number behind others of its line.
    fn put_next(&mut self, v: i64)
        ensures { Follows self.old (32 ∷ numeral v) self.new }
    {
        self.put(b" ");
        self.put_signed(v);
    }
}

// A line of numbers, one space between two, and how many bytes it has.
pub fn put_numbers(out: &mut [u8], numbers: &[i64]) -> usize
    ensures { Line out.old numbers.now out.new result }
{
    let [first, others @ ..] = numbers else {
        return 0;
    };
    let mut line = Text { out, end: 0 };
    line.put_signed(*first);
    for number in others {
        line.put_next(*number);
    }
    line.end
}
