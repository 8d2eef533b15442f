// Bytes as text: two hexadecimal digits each, of either case where they are read, small where they are written.
ghost use Rattle.std.specs.Prelude.{◌≡◌, ◌*◌, ◌<◌, MatchOption, length};
ghost use Rattle.text.specs.Buffer.{Puts};
ghost use Rattle.text.specs.Hexadecimal.{nibble_of, glyph_of, spelled, Parsed};

use crate::buffer::Text;

// What a byte says as a digit, if it is one.
#[tactic(auto, unfolding(crate::specs::Hexadecimal::nibble_of))]
fn nibble(byte: u8) -> Option<u8>
    ensures { MatchOption result (nibble_of byte ≡ 16) (λ d. (d ≡ nibble_of byte) × (d < 16)) }
{
    match byte {
        b'0'..=b'9' => Some(byte - b'0'),
        b'A'..=b'F' => Some(byte - b'A' + 10),
        b'a'..=b'f' => Some(byte - b'a' + 10),
        _ => None,
    }
}

// The bytes that a word of digits says, put at the start of out, and how many they are.
pub fn parse(word: &[u8], out: &mut [u8]) -> Option<usize>
    ensures { Parsed word.now out.old out.new result }
{
    let pairs = word.len() / 2;
    for i in 0..pairs {
        let high = nibble(word[2 * i])?;
        let low = nibble(word[2 * i + 1])?;
        if out.len() <= i {
            return None;
        }
        out[i] = high * 16 + low;
    }
    if word.len() % 2 == 0 {
        Some(pairs)
    } else {
        None
    }
}

// The digit of a number below 16.
#[tactic(auto, unfolding(crate::specs::Hexadecimal::glyph_of))]
fn glyph(n: u8) -> u8
    requires { n < 16 }
    ensures { result ≡ glyph_of n }
{
    if n < 10 { b'0' + n } else { b'a' + (n - 10) }
}

// Fills out, which is as long as that, with the digits of bytes.
fn spell(bytes: &[u8], out: &mut [u8])
    requires { length out.old ≡ 2 * length bytes.now }
    ensures { out.new ≡ spelled bytes.now }
{
    for (i, b) in bytes.iter().enumerate() {
        out[2 * i] = glyph(b / 16);
        out[2 * i + 1] = glyph(b % 16);
    }
}

// Puts the digits of bytes into a line.
pub fn put(line: &mut Text, bytes: &[u8])
    ensures { Puts line.old (spelled bytes.now) line.new }
{
    let at = line.end;
    let out = &mut *line.out;
    if out.len() < at || (out.len() - at) / 2 < bytes.len() {
        return;
    }
    let end = at + 2 * bytes.len();
    spell(bytes, &mut out[at..end]);
    line.end = end;
}
