// Whether blocks of one width begin with different keys, by marks: a key whose mark is clear is new, and only for another are the earlier keys asked
// one by one. So many keys cost few comparisons, where comparing each with each would cost half their square.
#![tactic(auto)]

ghost use Rattle.std.specs.Prelude.{◌≡◌, true, cond, ◌*◌, ◌≤◌, ◌<◌, length};
ghost use Rattle.cells.specs.Cells.{cells};
ghost use Rattle.layout.specs.Rows.{chunks};
ghost use Rattle.shape_names.specs.NameScan.{absent as absent-in};
ghost use Rattle.shape_keys.specs.Keys.{mark, lone_in};

// The mark of a key: its client and the last four bits of its sequence number, one of 256. What a client delivers in a row has different marks.
fn mark_of(key: u64) -> usize
    ensures { (result ≡ mark key) × (result < 256) }
{
    (key / layout::SEQUENCES % 16 * 16 + key % 16) as usize
}

// Is a key new after the first count blocks, where seen says whether its mark is set?
fn is_new(rows: &[u8], width: usize, count: usize, key: u64, seen: bool) -> bool
    requires { (0 < width) × (count * width * 8 ≤ length rows.now) }
    ensures { result ≡ cond seen (absent-in key (chunks width count (cells rows.now))) true }
{
    !seen || shape_names::absent(rows, width, count, key)
}

// Do the first count blocks, of width cells each, begin with different keys? Each is new after those before it, up to the first that is not; the
// mark of every key passed is set.
pub fn distinct(rows: &[u8], width: usize, count: usize) -> bool
    requires { (0 < width) × (count * width * 8 ≤ length rows.now) }
    ensures { result ≡ lone_in width count (cells rows.now) }
{
    let mut marks = [false; 256];
    for i in 0..count {
        let key = cells::get(rows, i * width);
        let m = mark_of(key);
        if !is_new(rows, width, i, key, marks[m]) {
            return false;
        }
        marks[m] = true;
    }
    true
}
