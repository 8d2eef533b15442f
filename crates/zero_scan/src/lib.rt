// Whether many bytes are all 0. An OR of all of them, with no early exit, which would keep the scan from using vectors.
//
// Machine code on x86-64, seen by `objdump -d` of a static library: all_zero takes 128 bytes a turn, eight 16-byte loads and eight ORs.
#![tactic(auto)]

ghost use Rattle.std.specs.Prelude.{◌≡◌, ◌+◌, ◌≤◌, length};
ghost use Rattle.std.proofs.Math.Seq.{slice};
ghost use Rattle.cells.specs.Zeros.{zeros};
ghost use Rattle.zero_scan.specs.Totals.{with_word};

// The last bytes of a scan, too few for a word: are those from index from up to, not including, index to all 0? An OR of them, byte by byte.
fn bytes_zero(area: &[u8], from: usize, to: usize) -> bool
    requires { (from ≤ to) × (to ≤ length area.now) }
    ensures { result ≡ zeros (slice from to area.now) }
{
    let mut seen: u8 = 0;
    for i in from..to {
        seen |= area[i];
    }
    seen == 0
}

// What was seen, with the eight bytes from index i on: one step of every scan. Its contract is shut, so that a proof sees no word's eight bytes.
pub fn or_word(area: &[u8], i: usize, seen: u64) -> u64
    requires { i + 8 ≤ length area.now }
    ensures { result ≡ with_word area.now i seen }
{
    seen | words::load(area, i)
}

// The same by words: an OR of them, eight bytes a turn, and the last bytes by `bytes_zero`.
fn words_zero(area: &[u8], from: usize, to: usize) -> bool
    requires { (from ≤ to) × (to ≤ length area.now) }
    ensures { result ≡ zeros (slice from to area.now) }
{
    let mut seen: u64 = 0;
    let words = (to - from) / 8;
    for k in 0..words {
        seen = or_word(area, from + k * 8, seen);
    }
    seen == 0 && bytes_zero(area, from + words * 8, to)
}

// Are the bytes from index from up to, not including, index to all 0? Eight words a turn, each into an OR of its own, so that none waits for the one
// before and LLVM makes vectors of them; what is left, under 64 bytes, by `words_zero`.
pub fn all_zero(area: &[u8], from: usize, to: usize) -> bool
    requires { (from ≤ to) × (to ≤ length area.now) }
    ensures { result ≡ zeros (slice from to area.now) }
{
    // Eight names and no array: the fixed theorems `eight-turn`, `eight-zero` and `eight-seen` speak of eight.
    let mut a: u64 = 0;
    let mut b: u64 = 0;
    let mut c: u64 = 0;
    let mut d: u64 = 0;
    let mut e: u64 = 0;
    let mut f: u64 = 0;
    let mut g: u64 = 0;
    let mut h: u64 = 0;
    let turns = (to - from) / 64;
    for k in 0..turns {
        let i = from + k * 64;
        a = or_word(area, i, a);
        b = or_word(area, i + 8, b);
        c = or_word(area, i + 16, c);
        d = or_word(area, i + 24, d);
        e = or_word(area, i + 32, e);
        f = or_word(area, i + 40, f);
        g = or_word(area, i + 48, g);
        h = or_word(area, i + 56, h);
    }
    let seen = ((a | b) | (c | d)) | ((e | f) | (g | h));
    seen == 0 && words_zero(area, from + turns * 64, to)
}
