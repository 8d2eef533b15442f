// One row: its run read into local arrays and written back, once each; its writes laid over a table as they stand.
#![tactic(auto)]

ghost use Rattle.std.specs.Prelude.{◌≡◌, true, map, ◌+◌, ◌*◌, ◌≤◌, length};
ghost use Rattle.std.specs.Int.{w64};
ghost use Rattle.std.proofs.Common.{of_z};
ghost use Rattle.cells.specs.Cells.{cells, splice};
ghost use Rattle.operation.specs.Body.{register_count};
ghost use Rattle.execution.specs.Run.{Beside, table_of, object_count, over};
ghost use Rattle.execution.specs.RunShape.{every, sound};
ghost use Rattle.execution.specs.Arrays.{Room};
ghost use Rattle.layout.specs.Offsets.{Sane, register_at, reads_at, entry_at};
ghost use Rattle.rows.specs.RowRun.{entries_in, registers_in, run_in, Readable, Loaded, front, entry_cells, Behind, Storable, Stored};

use execution::{Counts, Entry};

// The registers of a row. The loop fills the array: the places passed have their cells' values.
fn load_registers(row: &[u8], registers: &mut [i64; 4])
    requires { reads_at * 8 ≤ length row.now }
    ensures { registers.new ≡ registers_in (cells row.now) }
{
    for (i, v) in registers.iter_mut().enumerate() {
        *v = cells::get_signed(row, layout::ROW_REGISTERS + i);
    }
}

// As many entries of a row as are lent, from entry `from` on. The loop fills the slice: the places passed have their cells' objects and values.
pub fn load_entries(row: &[u8], from: usize, entries: &mut [Entry])
    requires { entry_at (from + length entries.old) * 8 ≤ length row.now }
    ensures { entries.new ≡ entries_in (cells row.now) from (length entries.old) }
{
    for (i, e) in entries.iter_mut().enumerate() {
        let at = layout::ROW_FIRST_ENTRY + (from + i) * layout::ENTRY_WIDTH;
        *e = Entry {
            object: cells::get(row, at) as usize,
            value: cells::get_signed(row, at + 1),
        };
    }
}

// The run of a row, in counts and arrays.
pub fn load_row(
    row: &[u8],
    registers: &mut [i64; 4],
    reads: &mut [Entry; 16],
    writes: &mut [Entry; 16],
) -> Counts
    requires { Readable row.now }
    ensures { Loaded (cells row.now) result registers.new reads.new writes.new }
{
    let counter = cells::get(row, layout::ROW_COUNTER) as usize;
    let outcome = cells::get(row, layout::ROW_OUTCOME) as usize;
    let first = cells::get(row, layout::ROW_READS) as usize;
    let total = cells::get(row, layout::ROW_ENTRIES) as usize;
    let rest = total - first;
    load_registers(row, registers);
    load_entries(row, 0, &mut reads[..first]);
    load_entries(row, first, &mut writes[..rest]);
    Counts {
        counter,
        outcome,
        reads: first,
        writes: rest,
    }
}

// Lays a row's writes over a table, the last entry first, so that the first entry of an object counts. The row is not loaded for it: work needs
// no more of most rows.
pub fn overlay_writes(row: &[u8], table: &mut [i64])
    requires readable { Readable row.now }
    requires row_value { every (sound (object_count table.old)) (run_in (cells row.now)).writes ≡ true }
    ensures table { (b : Beside) → table_of table.new b
        ≡ over (run_in (cells row.now)).writes (table_of table.old b) }
    ensures size { object_count table.new ≡ object_count table.old }
{
    let reads = cells::get(row, layout::ROW_READS) as usize;
    let total = cells::get(row, layout::ROW_ENTRIES) as usize;
    for i in (reads..total).rev() {
        let at = layout::ROW_FIRST_ENTRY + i * layout::ENTRY_WIDTH;
        let o = cells::get(row, at) as usize;
        table[o] = cells::get_signed(row, at + 1);
    }
}

// The registers into a row, one behind the other.
fn store_registers(row: &mut [u8], registers: &[i64; 4])
    requires { reads_at * 8 ≤ length row.old }
    ensures { cells row.new ≡ splice (cells row.old) (register_at 0) (map (of_z w64) registers.now) }
{
    for (i, v) in registers.iter().enumerate() {
        cells::put_signed(row, layout::ROW_REGISTERS + i, *v);
    }
}

// All that stands before the entries, but the key.
fn store_front(row: &mut [u8], t: Counts, registers: &[i64; 4])
    requires { (entry_at 0 * 8 ≤ length row.old) × (t.reads + t.writes ≤ length row.old) }
    ensures { Behind (cells row.old) (front t registers.now (cells row.old)) (cells row.new) }
{
    cells::put(row, layout::ROW_COUNTER, t.counter as u64);
    cells::put(row, layout::ROW_OUTCOME, t.outcome as u64);
    store_registers(row, registers);
    let reads = t.reads;
    let total = reads + t.writes;
    cells::put(row, layout::ROW_READS, reads as u64);
    cells::put(row, layout::ROW_ENTRIES, total as u64);
}

// Entries into a row, from entry `from` on: those passed stand there.
fn store_entries(row: &mut [u8], from: usize, entries: &[Entry])
    requires { entry_at (from + length entries.now) * 8 ≤ length row.old }
    ensures { cells row.new ≡ splice (cells row.old) (entry_at from) (entry_cells entries.now) }
{
    for (i, e) in entries.iter().enumerate() {
        let at = layout::ROW_FIRST_ENTRY + (from + i) * layout::ENTRY_WIDTH;
        cells::put(row, at, e.object as u64);
        cells::put_signed(row, at + 1, e.value);
    }
}

// Writes a run back into its row: the reads, right behind them the writes, and zeros behind these. The key stays.
pub fn store_row(
    row: &mut [u8],
    t: Counts,
    registers: &[i64; 4],
    reads: &[Entry; 16],
    writes: &[Entry; 16],
)
    requires { Storable t registers.now row.old }
    ensures { Stored t registers.now reads.now writes.now row.old row.new }
{
    store_front(row, t, registers);
    store_entries(row, 0, &reads[..t.reads]);
    store_entries(row, t.reads, &writes[..t.writes]);
    let used = layout::ROW_FIRST_ENTRY + (t.reads + t.writes) * layout::ENTRY_WIDTH;
    let end = row.len();
    cells::fill_zero(row, used * 8, end);
}
