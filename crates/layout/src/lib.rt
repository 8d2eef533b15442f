// Where each part of a replica's two areas lies, computed from the limits. The layout itself and its laws are in specs/.
// Offsets into the record area are in cells of 8 bytes, offsets into the body area and both lengths in bytes.
#![tactic(auto)]

ghost use Rattle.std.specs.Prelude.{◌≡◌, ◌*◌, ◌≤◌, ◌<◌, eqb, length, MatchOption};
ghost use Rattle.cells.specs.Cells.{cells};
ghost use Rattle.model.specs.Lists.{index};
ghost use Rattle.model.specs.Calls.{clients};
ghost use Rattle.layout.specs.Layout.{of_key};
ghost use Rattle.layout.specs.RowKeys.{keys};
ghost use Rattle.layout.specs.Offsets.{Sane, CellAt, ByteAt, last_at, reader_at, size_at, object_width, lower_at, object_at, pending_at};
ghost use Rattle.layout.specs.Offsets.{row_width, row_at, record_length, body_width, body_at, bodies_length};

use model::Limits;

// Where the parts of a pending transaction's row lie, in cells from its start.
pub const ROW_KEY: usize = 0;
// the program counter
pub const ROW_COUNTER: usize = 1;

pub const ROW_OUTCOME: usize = 2;
// the first of the registers
pub const ROW_REGISTERS: usize = 3;
// the number of reads
pub const ROW_READS: usize = 7;
// the number of reads and writes
pub const ROW_ENTRIES: usize = 8;
// the first entry: the reads, right behind them the writes
pub const ROW_FIRST_ENTRY: usize = 9;

// The cells of an entry: an object and a value.
pub const ENTRY_WIDTH: usize = 2;

// Where the parts of an object's newest version lie, in cells from the start of its block, behind the number of its versions.
pub const NEWEST_STAMP: usize = 1;

pub const NEWEST_VALUE: usize = 2;

// Where the commit timestamp lies.
pub const TIMESTAMP: usize = 0;

// Sequence numbers are below it.
pub const SEQUENCES: u64 = 0x1_0000_0000;

// A transaction's key as its row has it.
pub fn key_cell(client: u32, sequence: u32) -> u64
    ensures { result ≡ of_key (client, sequence) }
{
    u64::from(client) * SEQUENCES + u64::from(sequence)
}

// The index of the first of count blocks, of width cells each, that begins with key.
pub fn key_index(blocks: &[u8], width: usize, count: usize, key: u64) -> Option<usize>
    requires { (0 < width) × (count * width * 8 ≤ length blocks.now) }
    ensures { MatchOption result (index (eqb key) (keys width count (cells blocks.now)) ≡ count)
        (λ i. (i < count) × (i ≡ index (eqb key) (keys width count (cells blocks.now)))) }
{
    for i in 0..count {
        if cells::get(blocks, i * width) == key {
            return Some(i);
        }
    }
    None
}

// Where a client's last number lies; with client the number of clients, where the readers begin.
pub fn last_at(l: Limits, client: usize) -> usize
    requires sane { Sane l }
    requires client_le_clients { client ≤ clients }
    ensures { CellAt l (last_at client) result }
{
    1 + client
}

// Where a reader's cell lies; with reader the readers' limit, where the last one ends.
pub fn reader_at(l: Limits, reader: usize) -> usize
    requires sane { Sane l }
    requires reader_le_readers { reader ≤ l.readers }
    ensures { CellAt l (reader_at reader) result }
{
    17 + reader
}

// Where the number of objects lies.
pub fn size_at(l: Limits) -> usize
    requires { Sane l }
    ensures { CellAt l (size_at l) result }
{
    reader_at(l, l.readers)
}

// The cells of an object: the block of its versions and its bounds.
pub fn object_width(l: Limits) -> usize
    requires { Sane l }
    ensures { result ≡ object_width l }
{
    versions::object_cells(l.readers)
}

// Where the bounds lie in an object, the lower first: behind its versions.
pub fn bounds_at(l: Limits) -> usize
    requires { Sane l }
    ensures { result ≡ lower_at l }
{
    versions::width(l.readers)
}

// Where object i begins; with i the number of objects' limit, where the last one ends.
pub fn object_at(l: Limits, i: usize) -> usize
    requires sane { Sane l }
    requires i_le_objects { i ≤ l.objects }
    ensures { CellAt l (object_at l i) result }
{
    1 + size_at(l) + i * object_width(l)
}

// Where the number of pending transactions lies.
pub fn pending_at(l: Limits) -> usize
    requires { Sane l }
    ensures { CellAt l (pending_at l) result }
{
    object_at(l, l.objects)
}

// The cells of a pending transaction's row.
pub fn row_width(l: Limits) -> usize
    requires { Sane l }
    ensures { result ≡ row_width l }
{
    ROW_FIRST_ENTRY + ENTRY_WIDTH * l.operations
}

// Where row i begins; with i the limit of pending transactions, where the last one ends.
pub fn row_at(l: Limits, i: usize) -> usize
    requires sane { Sane l }
    requires i_le_pending { i ≤ l.pending }
    ensures { CellAt l (row_at l i) result }
{
    1 + pending_at(l) + i * row_width(l)
}

// The length of the record area.
pub fn record_length(l: Limits) -> usize
    requires { Sane l }
    ensures { result ≡ record_length l }
{
    row_at(l, l.pending) * 8
}

// The bytes of a place in the body area: those of the longest body.
pub fn body_width(l: Limits) -> usize
    requires { Sane l }
    ensures { result ≡ body_width l }
{
    operation::body_length(l.operations)
}

// Where body i begins; with i the limit of pending transactions, where the last one ends.
pub fn body_at(l: Limits, i: usize) -> usize
    requires sane { Sane l }
    requires i_le_pending { i ≤ l.pending }
    ensures { ByteAt l (body_at l i) result }
{
    i * body_width(l)
}

// The length of the body area.
pub fn bodies_length(l: Limits) -> usize
    requires { Sane l }
    ensures { result ≡ bodies_length l }
{
    body_at(l, l.pending)
}
