// The shape check of one row with the place of its body (document 01, "Shape check"): key, body, and the run's counter, outcome, read set and
// write set, whose values lie inside their objects' bounds (document 02, S-1). It looks at the parts lent to it and knows nothing of the areas' layout.
#![tactic(auto)]

ghost use Rattle.std.specs.Prelude.{◌≡◌, ◌||◌, ◌+◌, ◌*◌, ◌^◌, ◌≤◌, ◌<◌, eqb, length, drop};
ghost use Rattle.cells.specs.Cells.{cells};
ghost use Rattle.cells.specs.Zeros.{zeros};
ghost use Rattle.operation.specs.Columns.{most_operations};
ghost use Rattle.layout.specs.Offsets.{entry_at};
ghost use Rattle.shape_row.specs.RowScan.{key_in, body_in, stores_in, sets_in, run_in, row_in, cells_of, place_of};
ghost use Rattle.shape_row.specs.LentRow.{Objects, Named, Row};

// What every row is judged beside: the last numbers, the objects, and of these the number n and the readers that their versions are for; a body has at
// most so many operations.
#[derive(Clone, Copy)]
pub struct Beside<'a> {
    pub lasts: &'a [u8],
    pub objects: &'a [u8],
    pub readers: usize,
    pub most: usize,
    pub n: usize,
}

// Is a key one of a client's, and unspent, its sequence number being above the client's last?
fn key_ok(lasts: &[u8], key: u64) -> bool
    requires { length lasts.now ≡ 128 }
    ensures { result ≡ key_in (cells lasts.now) key }
{
    let client = (key / layout::SEQUENCES) as usize;
    if model::CLIENTS as usize <= client {
        return false;
    }
    cells::get(lasts, client) < key % layout::SEQUENCES
}

// Is there a well-formed body at the front of its place, over n objects, and zeros behind it? The body's first byte says where it ends.
fn body_ok(place: &[u8], most: usize, n: usize) -> bool
    requires { (length place.now ≡ place_of most) × (most ≤ most_operations) }
    ensures { result ≡ body_in most n place.now }
{
    let m = operation::small(place[0]);
    let end = operation::body_length(m);
    if place.len() < end {
        return false;
    }
    operation_decoder::decode(&place[..end], most, n).is_some()
        && operation_decoder::units_zero(place, end, most - m)
}

// The cells of a row whose body has at most so many operations, each of which reads or writes one object at most.
pub fn row_cells(most: usize) -> usize
    requires { most < 2 ^ 60 }
    ensures { result ≡ cells_of most }
{
    layout::ROW_FIRST_ENTRY + layout::ENTRY_WIDTH * most
}

// Is the value of each of the first count entries inside the bounds of the entry's object, which is one of those lent? Where the bounds lie depends on
// the readers alone, so that the other limits do not matter.
fn stores_ok(entries: &[u8], objects: &[u8], readers: usize, count: usize) -> bool
    requires { (count * 16 ≤ length entries.now) × Named readers count (cells entries.now) objects.now }
    ensures { result ≡ stores_in readers (cells objects.now) count (cells entries.now) }
{
    let width = versions::object_cells(readers);
    let bounds = versions::width(readers);
    for i in 0..count {
        let at = i * layout::ENTRY_WIDTH;
        let lower = cells::get(entries, at) as usize * width + bounds;
        if !execution::allows(objects, lower, cells::get_signed(entries, at + 1)) {
            return false;
        }
    }
    true
}

// Are the cells of a row behind its first count entries zero? Called with a literal count it is straight code.
fn behind_zero(row: &[u8], most: usize, count: usize) -> bool
    requires { (length row.now ≡ cells_of most * 8) × (count ≤ most) }
    ensures { result ≡ zeros (drop (entry_at count) (cells row.now)) }
{
    let end = layout::ROW_FIRST_ENTRY + count * layout::ENTRY_WIDTH;
    cells::cells_zero(row, end, row_cells(most))
}

// The same by the number of entries, of which there are few in most rows: a loop of a length that changes from row to row takes as long again.
fn rest_zero(row: &[u8], most: usize, both: usize) -> bool
    requires { (length row.now ≡ cells_of most * 8) × (both ≤ most) }
    ensures { result ≡ zeros (drop (entry_at both) (cells row.now)) }
{
    match both {
        2 => behind_zero(row, most, 2),
        3 => behind_zero(row, most, 3),
        4 => behind_zero(row, most, 4),
        5 => behind_zero(row, most, 5),
        6 => behind_zero(row, most, 6),
        7 => behind_zero(row, most, 7),
        8 => behind_zero(row, most, 8),
        _ => behind_zero(row, most, both),
    }
}

// The entries of a row: so many reads, then writes, so many of both, the writes inside their objects' bounds, and zeros behind them.
fn sets_ok(row: &[u8], b: Beside, reads: usize, both: usize) -> bool
    requires { (length row.now ≡ cells_of b.most * 8) × (reads ≤ both) × (both ≤ b.most) × Objects b.n b.readers b.objects.now }
    ensures { result ≡ sets_in b.entry.readers (cells b.entry.objects.now) b.entry.n reads both (cells row.now) }
{
    let first = layout::ROW_FIRST_ENTRY * 8;
    let from = (layout::ROW_FIRST_ENTRY + reads * layout::ENTRY_WIDTH) * 8;
    let writes = &row[from..];
    let stores = both - reads;
    shape_names::names_ok(&row[first..], reads, b.n as u64)
        && shape_names::names_ok(writes, stores, b.n as u64)
        && stores_ok(writes, b.objects, b.readers, stores)
        && rest_zero(row, b.most, both)
}

// Are there no writes, unless the outcome is 0? A transaction that stopped has none.
fn stopped_ok(outcome: u64, reads: usize, both: usize) -> bool
    ensures { result ≡ (eqb outcome 0 || eqb reads both) }
{
    outcome == 0 || reads == both
}

// A row's run, of a body of m operations: at its start all zeros, else counter, outcome, read set and write set within their limits. An operation
// reads or writes one object at most, so that there are no more entries than operations before the counter.
#[tactic(auto, using(crate::proofs::RunTests::failing_tests))]
fn run_ok(row: &[u8], b: Beside, m: usize) -> bool
    requires { (length row.now ≡ cells_of b.most * 8) × (m ≤ b.most) × Objects b.n b.readers b.objects.now }
    ensures { result ≡ run_in b.entry.readers (cells b.entry.objects.now) b.entry.n m (cells row.now) }
{
    let counter = cells::get(row, layout::ROW_COUNTER) as usize;
    if counter == 0 {
        return cells::cells_zero(row, layout::ROW_OUTCOME, row_cells(b.most));
    }
    let outcome = cells::get(row, layout::ROW_OUTCOME);
    let reads = cells::get(row, layout::ROW_READS) as usize;
    let both = cells::get(row, layout::ROW_ENTRIES) as usize;
    if m < counter {
        return false;
    }
    if 3 < outcome {
        return false;
    }
    if counter < both {
        return false;
    }
    if both < reads {
        return false;
    }
    stopped_ok(outcome, reads, both) && sets_ok(row, b, reads, both)
}

// One row with the place of its body: its key, its body, and then its run, which is judged by the body's length.
pub fn row_ok(row: &[u8], place: &[u8], b: Beside) -> bool
    requires { Row b.most b.n b.readers row.now place.now b.lasts.now b.objects.now }
    ensures { result ≡ row_in b.entry.most b.entry.n b.entry.readers (cells b.entry.objects.now) (cells b.entry.lasts.now)
        (cells row.now) place.now }
{
    key_ok(b.lasts, cells::get(row, layout::ROW_KEY))
        && body_ok(place, b.most, b.n)
        && run_ok(row, b, operation::small(place[0]))
}
