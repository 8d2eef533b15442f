// Numbers as words: decimal digits, before which a signed number may have a minus sign.
ghost use Rattle.std.specs.Prelude.{◌≡◌, ◌≤◌, ◌<◌, MatchOption, unsigned_abs};
ghost use Rattle.text.specs.Numbers.{digit_of, unsigned_of, negative_of, signed_of};

// What a decimal digit says; no other byte says anything.
#[tactic(auto, unfolding(crate::specs::Numbers::digit_of))]
fn digit(byte: u8) -> Option<u64>
    ensures { MatchOption result (digit_of byte ≡ 10) (λ d. (d ≡ digit_of byte) × (d < 10)) }
{
    match byte {
        b'0'..=b'9' => Some(u64::from(byte - b'0')),
        _ => None,
    }
}

// The number that a word of digits says, where it is not above `most`.
pub fn unsigned(word: &[u8], most: u64) -> Option<u64>
    ensures { result ≡ unsigned_of most word.now }
{
    if word.is_empty() {
        return None;
    }
    let mut n = 0;
    for byte in word {
        let d = digit(*byte)?;
        if most < d || (most - d) / 10 < n {
            return None;
        }
        n = n * 10 + d;
    }
    Some(n)
}

// The number below 0, or 0, whose distance from 0 a word of digits says.
fn negative(digits: &[u8]) -> Option<i64>
    ensures { result ≡ negative_of digits.now }
{
    let n = unsigned(digits, 9_223_372_036_854_775_808)?;
    Some(n.wrapping_neg().cast_signed())
}

// The number that a word of digits, with or without a minus sign, says, where 64 bits hold it.
pub fn signed(word: &[u8]) -> Option<i64>
    ensures { result ≡ signed_of word.now }
{
    if let [b'-', digits @ ..] = word {
        return negative(digits);
    }
    let n = unsigned(word, 9_223_372_036_854_775_807)?;
    Some(n.cast_signed())
}

// A number's distance from 0.
pub fn magnitude(v: i64) -> u64
    ensures { result ≡ unsigned_abs v }
{
    v.unsigned_abs()
}
