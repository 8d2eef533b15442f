// The objects that a read set or a write set names (document 01, "Shape check": "name different objects below n"). Entries stand one behind another, two
// cells each, the object first.
#![tactic(auto)]

ghost use Rattle.std.specs.Prelude.{◌≡◌, ◌-◌, ◌*◌, ◌≤◌, ◌<◌, length, drop};
ghost use Rattle.cells.specs.Cells.{cells};
ghost use Rattle.layout.specs.Rows.{chunks};
ghost use Rattle.shape_names.specs.NameScan.{absent as absent-in, names_in};

// Does none of the first count blocks, of width cells each, begin with key?
pub fn absent(blocks: &[u8], width: usize, count: usize, key: u64) -> bool
    requires { (0 < width) × (count * width * 8 ≤ length blocks.now) }
    ensures { result ≡ absent-in key (chunks width count (cells blocks.now)) }
{
    layout::key_index(blocks, width, count, key).is_none()
}

// Does none of the entries from one up to another name the object? All are asked, without a branch.
fn no_other(entries: &[u8], from: usize, to: usize, object: u64) -> bool
    requires { (from ≤ to) × (to * 16 ≤ length entries.now) }
    ensures { result ≡ absent-in object (chunks 2 (to - from) (drop (from * 2) (cells entries.now))) }
{
    let mut none = true;
    for i in from..to {
        none &= cells::get(entries, i * layout::ENTRY_WIDTH) != object;
    }
    none
}

// So few entries that their number is a constant, and the loops are straight code: do they name different objects, below n? All is tested, without
// a branch.
fn few_names<const N: usize>(entries: &[u8], n: u64) -> bool
    requires { N * 16 ≤ length entries.now }
    ensures { result ≡ names_in n N (cells entries.now) }
{
    let mut fine = true;
    for i in 0..N {
        let object = cells::get(entries, i * layout::ENTRY_WIDTH);
        fine &= (object < n) & no_other(entries, i + 1, N, object);
    }
    fine
}

// Do the first count entries name different objects, below n? Each is looked for among those behind it.
fn many_names(entries: &[u8], count: usize, n: u64) -> bool
    requires { count * 16 ≤ length entries.now }
    ensures { result ≡ names_in n count (cells entries.now) }
{
    for i in 0..count {
        let at = i * layout::ENTRY_WIDTH;
        let object = cells::get(entries, at);
        if n <= object {
            return false;
        }
        let from = (at + layout::ENTRY_WIDTH) * 8;
        let left = count - i - 1;
        if !absent(&entries[from..], layout::ENTRY_WIDTH, left, object) {
            return false;
        }
    }
    true
}

// Do the first count entries name different objects, below n? Up to four, as most rows have, without a loop.
pub fn names_ok(entries: &[u8], count: usize, n: u64) -> bool
    requires { count * 16 ≤ length entries.now }
    ensures { result ≡ names_in n count (cells entries.now) }
{
    match count {
        1 => few_names::<1>(entries, n),
        2 => few_names::<2>(entries, n),
        3 => few_names::<3>(entries, n),
        4 => few_names::<4>(entries, n),
        _ => many_names(entries, count, n),
    }
}
