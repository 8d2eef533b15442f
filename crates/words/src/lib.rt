// A 64-bit word as eight bytes, the lowest first. On x86-64 `load` and `put_word` are one `mov` each.
#![tactic(auto)]

ghost use Rattle.std.specs.Prelude.{◌≡◌, ◌+◌, ◌≤◌, length};
ghost use Rattle.words.specs.Words.{bytes, loaded};

// The eight bytes from index i on, as a number. Tried, and slower: `copy_from_slice` into an array, a branch on each read (`decode` 48 ns for 25).
pub fn load(area: &[u8], i: usize) -> u64
    requires { i + 8 ≤ length area.now }
    ensures { result ≡ loaded area.now i }
{
    u64::from_le_bytes([
        area[i],
        area[i + 1],
        area[i + 2],
        area[i + 3],
        area[i + 4],
        area[i + 5],
        area[i + 6],
        area[i + 7],
    ])
}

// Writes the eight bytes of v, the lowest first.
pub fn put_word(b: &mut [u8], v: u64)
    requires { length b.old ≡ 8 }
    ensures { b.new ≡ bytes 8 v }
{
    b.copy_from_slice(&v.to_le_bytes());
}
