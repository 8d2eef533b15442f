// The committed state, from which a run's table starts: its values as a local array, and where its stamps and bounds stand in the record area, which is
// lent beside them.
#![tactic(auto)]

ghost use Rattle.std.specs.Prelude.{◌≡◌, length};
ghost use Rattle.layout.specs.Offsets.{Sane};
ghost use Rattle.committed_table.specs.Committed.{Laid, BlocksSorted, Committed, objects_place};

use execution::ObjectsAt;
use model::Limits;

// The committed state: of each object the value that a reader opened now would see, by the lookup that readers use; the objects passed have theirs.
// How many of the array's places they take: it is of the largest size, since there is no heap. Their stamps are not gathered: they stand in the record
// area, which is lent beside the values.
pub fn committed_values(records: &[u8], l: Limits, table: &mut [i64; 128]) -> usize
    requires { Sane l × Laid l records.now × BlocksSorted l records.now × (length table.old ≡ 128) }
    ensures { Committed l records.now result table.new }
{
    let n = cells::get(records, layout::size_at(l)) as usize;
    let timestamp = cells::get(records, layout::TIMESTAMP);
    let block = layout::bounds_at(l) * 8;
    for i in 0..n {
        let first = layout::object_at(l, i) * 8;
        let end = first + block;
        table[i] = versions::lookup(&records[first..end], timestamp).value;
    }
    n
}

// Where the stamps and the bounds of the objects stand in the record area.
pub fn objects_place(l: Limits) -> ObjectsAt
    requires { Sane l }
    ensures { result ≡ objects_place l }
{
    let first = layout::object_at(l, 0);
    ObjectsAt {
        stamp: first + layout::NEWEST_STAMP,
        lower: first + layout::bounds_at(l),
        stride: layout::object_width(l),
    }
}
