// The walk over the pending transactions after a commit: the first whose recorded reads no longer match its table, and all after it, go back to
// their start. A table is not gathered for it: an array says in which cell of the record area each object's value stands.
#![tactic(auto)]

ghost use Rattle.std.specs.Prelude.{◌≡◌, length, get_or};
ghost use Rattle.cells.specs.Cells.{cells};
ghost use Rattle.execution.specs.Run.{matches};
ghost use Rattle.layout.specs.Offsets.{Sane, size_at};
ghost use Rattle.layout.specs.Holds.{Holding};
ghost use Rattle.committed_table.specs.Committed.{Laid};
ghost use Rattle.final_walk.specs.Places.{table_in, Placed, Reaching};
ghost use Rattle.final_walk.specs.Recorded.{reads_from, writes_from, Lying, LaidOver};
ghost use Rattle.final_walk.specs.RestartFrom.{Restarts};
ghost use Rattle.final_walk.specs.Walk.{Walking, Stale, Walks};

use model::{Limits, OptimisticPosition};

// Where the committed state stands: each object's newest value has its cell in the object's block.
pub fn committed_places(records: &[u8], l: Limits, places: &mut [usize; 128])
    requires sane { Sane l }
    requires laid { Laid l records.now × (length places.old ≡ 128) }
    ensures { Placed l (get_or (cells records.now) (size_at l) 0) places.new }
{
    let n = cells::get(records, layout::size_at(l)) as usize;
    let width = layout::object_width(l);
    let first = layout::object_at(l, 0) + layout::NEWEST_VALUE;
    for o in 0..n {
        places[o] = first + o * width;
    }
}

// Whether every value that the run in the row at this cell read from outside itself is the one that stands in the object's place.
pub fn reads_match(records: &[u8], at: usize, places: &[usize; 128]) -> bool
    requires lying { Lying records.now at }
    requires reaching { Reaching records.now places.now (reads_from (cells records.now) at) }
    ensures { result ≡ matches (table_in (cells records.now) places.now) (reads_from (cells records.now) at) }
{
    let count = cells::get(records, at + layout::ROW_READS) as usize;
    for i in 0..count {
        let cell = at + layout::ROW_FIRST_ENTRY + i * layout::ENTRY_WIDTH;
        let o = cells::get(records, cell) as usize;
        let read = cells::get_signed(records, cell + 1);
        let place = places[o];
        if cells::get_signed(records, place) != read {
            return false;
        }
    }
    true
}

// The objects written by the run in the row at this cell have their values there from now on. The last entry first, so that the first entry of an
// object counts.
fn lay_writes(records: &[u8], at: usize, places: &mut [usize; 128])
    requires lying { Lying records.now at }
    requires reaching { Reaching records.now places.old (writes_from (cells records.now) at) }
    ensures { LaidOver records.now at places.old places.new }
{
    let reads = cells::get(records, at + layout::ROW_READS) as usize;
    let total = cells::get(records, at + layout::ROW_ENTRIES) as usize;
    for i in (0..total - reads).rev() {
        let cell = at + layout::ROW_FIRST_ENTRY + (reads + i) * layout::ENTRY_WIDTH;
        let o = cells::get(records, cell) as usize;
        places[o] = cell + 1;
    }
}

// The position of the first pending transaction whose recorded reads no longer match its table, or their number. `places` are those of the committed
// state at first; each transaction that matches lays its writes over it, so they are always those of the next one's table.
fn first_stale(records: &[u8], l: Limits, places: &mut [usize; 128]) -> OptimisticPosition
    requires sane { Sane l }
    requires walking { Walking l records.now places.old }
    ensures { Stale l records.now places.old result.0 }
{
    let count = cells::get(records, layout::pending_at(l)) as usize;
    for i in 0..count {
        let row = layout::row_at(l, i);
        if reads_match(records, row, places) {
            lay_writes(records, row, places);
        } else {
            return OptimisticPosition(i as u32);
        }
    }
    OptimisticPosition(count as u32)
}

// The pending transactions from this position on go back to their start, one after another: all of a row but its key is 0.
fn restart_from(records: &mut [u8], l: Limits, from: OptimisticPosition)
    requires sane { Sane l }
    requires holding { Holding l records.old }
    ensures { Restarts l from.0 records.old records.new }
{
    let pending = cells::get(records, layout::pending_at(l)) as usize;
    let first = from.0 as usize;
    for i in first..pending {
        let row = layout::row_at(l, i);
        let next = layout::row_at(l, i + 1);
        cells::fill_zero(records, (row + layout::ROW_COUNTER) * 8, next * 8);
    }
}

// The walk, with the places of the committed state.
pub fn walk(records: &mut [u8], l: Limits, places: &mut [usize; 128])
    requires sane { Sane l }
    requires walking { Walking l records.old places.old }
    ensures { Walks l places.old records.old records.new }
{
    let stale = first_stale(records, l, places);
    restart_from(records, l, stale);
}
