// The shape check of the header and the objects (document 01, "Shape check"): timestamp, last numbers, readers, versions with bounds, and zeros behind
// them.
#![tactic(auto)]

ghost use Rattle.std.specs.Prelude.{◌≡◌, ◌*◌, ◌≤◌, length, get_or};
ghost use Rattle.cells.specs.Cells.{cells};
ghost use Rattle.model.specs.Calls.{last_timestamp};
ghost use Rattle.shape_objects.specs.ObjectScan.{below, header_in, objects_in};
ghost use Rattle.shape_objects.specs.LentRecord.{Record};

use model::Limits;

// Is each of the cells below bound? Cell by cell, up to the first that is not.
fn all_below(part: &[u8], count: usize, bound: u64) -> bool
    requires { length part.now ≡ count * 8 }
    ensures { result ≡ below bound (cells part.now) }
{
    for i in 0..count {
        if bound <= cells::get(part, i) {
            return false;
        }
    }
    true
}

// Timestamp, last numbers and readers. An open reader's cell is its stamp + 1, and its stamp is not above the timestamp.
#[tactic(auto, using(crate::proofs::PartTests::failing_tests))]
pub fn header_ok(records: &[u8], l: Limits) -> bool
    requires { Record l records.now }
    ensures { result ≡ header_in l (cells records.now) }
{
    let timestamp = cells::get(records, layout::TIMESTAMP);
    if model::LAST_TIMESTAMP < timestamp {
        return false;
    }
    let lasts = layout::last_at(l, 0) * 8;
    let readers = layout::reader_at(l, 0) * 8;
    let end = layout::size_at(l) * 8;
    let clients = model::CLIENTS as usize;
    all_below(&records[lasts..readers], clients, layout::SEQUENCES)
        && all_below(&records[readers..end], l.readers, timestamp + 2)
}

// The number of objects n, their versions beside the readers and inside their bounds, and zeros where there might be more objects.
#[tactic(auto, using(crate::proofs::PartTests::failing_tests))]
pub fn objects_ok(records: &[u8], l: Limits) -> bool
    requires { Record l records.now × (get_or (cells records.now) 0 0 ≤ last_timestamp) }
    ensures { result ≡ objects_in l (cells records.now) }
{
    let size = layout::size_at(l);
    let n = cells::get(records, size) as usize;
    if n < 1 {
        return false;
    }
    if l.objects < n {
        return false;
    }
    let timestamp = cells::get(records, layout::TIMESTAMP);
    let readers = layout::reader_at(l, 0) * 8;
    let last = size * 8;
    let first = layout::object_at(l, 0) * 8;
    let end = layout::object_at(l, n) * 8;
    let behind = layout::pending_at(l) * 8;
    let objects = &records[first..end];
    shape_versions::objects_ok(objects, &records[readers..last], l.readers, n, timestamp)
        && zero_scan::all_zero(records, end, behind)
}
