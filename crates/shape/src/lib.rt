// The shape check of document 01 on the two lent areas, in one pass: equal to the definition on bytes of any contents and any length.
// One row is `shape_row`'s, header and objects are `shape_objects`'s.
#![tactic(auto)]

ghost use Rattle.std.specs.Prelude.{◌≡◌, true, ◌&&◌, ◌||◌, ◌*◌, ◌≤◌, ◌<◌, eqb, length};
ghost use Rattle.cells.specs.Cells.{cells};
ghost use Rattle.layout.specs.Offsets.{Sane, bodies_length};
ghost use Rattle.layout.specs.Unchecked.{size_in};
ghost use Rattle.layout.specs.Fit.{fit};
ghost use Rattle.shape_row.specs.RowScan.{place_of};
ghost use Rattle.shape.specs.AreaScan.{placed_in, finished_in, keyless_in, rows_in, used_in, pending_part};
ghost use Rattle.shape.specs.LentRows.{Rows};
ghost use Rattle.shape_objects.specs.LentRecord.{Record};

use model::Limits;
use shape_row::Beside;

// May a row stand where it does? All before it are finished, or it is at its start.
fn order_ok(finished: bool, counter: u64) -> bool
    ensures { result ≡ (finished || eqb counter 0) }
{
    finished || counter == 0
}

// The first row: itself, and its place in the order, where finished says whether all before it are.
fn next_ok(rows: &[u8], place: &[u8], b: Beside, finished: bool) -> bool
    requires { Rows b.most b.n b.readers 1 rows.now b.lasts.now b.objects.now × (length place.now ≡ place_of b.most) }
    ensures { result ≡ placed_in b.entry.most b.entry.n b.entry.readers (cells b.entry.objects.now) (cells b.entry.lasts.now)
        finished (cells rows.now) place.now }
{
    let end = shape_row::row_cells(b.most) * 8;
    shape_row::row_ok(&rows[..end], place, b)
        && order_ok(finished, cells::get(rows, layout::ROW_COUNTER))
}

// Is the transaction of the first row finished: stopped with an outcome, or past its last operation?
fn is_finished(rows: &[u8], place: &[u8]) -> bool
    requires { (24 ≤ length rows.now) × (0 < length place.now) }
    ensures { result ≡ finished_in (cells rows.now) place.now }
{
    let counter = cells::get(rows, layout::ROW_COUNTER) as usize;
    let outcome = cells::get(rows, layout::ROW_OUTCOME) as usize;
    execution::is_finished(place, counter, outcome)
}

// The first count rows, each with the place of its body, but for their keys: row by row, up to the first that fails; finished says whether all rows
// before are.
fn each_ok(rows: &[u8], places: &[u8], b: Beside, count: usize) -> bool
    requires { Rows b.most b.n b.readers count rows.now b.lasts.now b.objects.now × (count * place_of b.most ≤ length places.now) }
    ensures { result ≡ keyless_in b.entry.most b.entry.n b.entry.readers (cells b.entry.objects.now) (cells b.entry.lasts.now)
        true count (cells rows.now) places.now }
{
    let width = shape_row::row_cells(b.most) * 8;
    let size = operation::body_length(b.most);
    let mut finished = true;
    for i in 0..count {
        let at = i * width;
        let from = i * size;
        let to = from + size;
        let row = &rows[at..];
        let place = &places[from..to];
        if !next_ok(row, place, b, finished) {
            return false;
        }
        finished &= is_finished(row, place);
    }
    true
}

// The first count rows, each with the place of its body, and their keys, which are different: a loop of their own, over one cell a row.
fn rows_ok(rows: &[u8], places: &[u8], b: Beside, count: usize) -> bool
    requires { Rows b.most b.n b.readers count rows.now b.lasts.now b.objects.now × (count * place_of b.most ≤ length places.now) }
    ensures { result ≡ rows_in b.entry.most b.entry.n b.entry.readers (cells b.entry.objects.now) (cells b.entry.lasts.now)
        true count (cells rows.now) places.now }
{
    each_ok(rows, places, b, count)
        && shape_keys::distinct(rows, shape_row::row_cells(b.most), count)
}

// The rows in use, count of them, where they lie in the areas, beside the last numbers and the objects, whose number was found within its limit.
fn used_ok(records: &[u8], bodies: &[u8], l: Limits, count: usize) -> bool
    requires lent { Record l records.now × (length bodies.now ≡ bodies_length l) }
    requires few { (count ≤ l.pending) × (size_in l (cells records.now) ≤ l.objects) }
    ensures { result ≡ used_in l count (cells records.now) bodies.now }
{
    let n = cells::get(records, layout::size_at(l)) as usize;
    let lasts = layout::last_at(l, 0) * 8;
    let readers = layout::reader_at(l, 0) * 8;
    let objects = layout::object_at(l, 0) * 8;
    let end = layout::object_at(l, n) * 8;
    let first = layout::row_at(l, 0) * 8;
    let b = Beside {
        lasts: &records[lasts..readers],
        objects: &records[objects..end],
        readers: l.readers,
        most: l.operations,
        n,
    };
    rows_ok(&records[first..], bodies, b, count)
}

// The number of pending transactions, their rows and bodies, and zeros where there might be more of both.
fn pending_ok(records: &[u8], bodies: &[u8], l: Limits) -> bool
    requires { Record l records.now × (length bodies.now ≡ bodies_length l) × (size_in l (cells records.now) ≤ l.objects) }
    ensures { result ≡ pending_part l (cells records.now) bodies.now }
{
    let count = cells::get(records, layout::pending_at(l)) as usize;
    if l.pending < count {
        return false;
    }
    let end = layout::row_at(l, count) * 8;
    let tail = layout::row_at(l, l.pending) * 8;
    let last = layout::body_at(l, count);
    used_ok(records, bodies, l, count)
        && zero_scan::all_zero(records, end, tail)
        && zero_scan::all_zero(bodies, last, bodies.len())
}

// The shape check. Areas of wrong lengths fail it; on others the header first, since the objects are judged beside its timestamp and readers, and the
// pending transactions last, since their stores are judged beside the objects.
pub fn check(records: &[u8], bodies: &[u8], l: Limits) -> bool
    requires { Sane l × (l.operations ≤ 16) }
    ensures { result ≡ fit l (records.now, bodies.now) }
{
    if records.len() != layout::record_length(l) {
        return false;
    }
    if bodies.len() != layout::bodies_length(l) {
        return false;
    }
    shape_objects::header_ok(records, l)
        && shape_objects::objects_ok(records, l)
        && pending_ok(records, bodies, l)
}
