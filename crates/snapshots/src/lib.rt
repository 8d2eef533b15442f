// The readers' calls on a lent record area that passed the shape check: a reader ("snapshot") takes the current timestamp when it is opened,
// reads each object as of that timestamp, and is closed, whereupon the versions that it alone held go.
#![tactic(auto)]

ghost use Rattle.std.specs.Prelude.{◌≡◌, ◌≤◌, ◌<◌, MatchResult};
ghost use Rattle.model.specs.Answers.{reply, reading};
ghost use Rattle.model.specs.Calls.{open_reader, read as read-call, close_reader};
ghost use Rattle.layout.specs.Offsets.{Sane, CellAt, reader_at};
ghost use Rattle.layout.specs.Contract.{Supported, HoldsShaped, MetBeside};
ghost use Rattle.snapshots.specs.ClosePruning.{Prunable, Pruned};

use model::{CommitTimestamp, Limits, Refusal, Version};

// Where the cell of a reader lies, if the replica has such a reader: the first test of each call.
fn reader_cell(l: Limits, reader: u32) -> Result<usize, Refusal>
    requires { Sane l }
    ensures { MatchResult result (λ at. (reader < l.readers) × CellAt l (reader_at reader) at)
        (λ refusal. (refusal ≡ Refusal.UnknownReader) × (l.readers ≤ reader)) }
{
    let r = reader as usize;
    if l.readers <= r {
        return Err(Refusal::UnknownReader);
    }
    Ok(layout::reader_at(l, r))
}

// Opens a reader that is closed: its cell takes the timestamp + 1, so that one opened at timestamp 0 does not look closed.
pub fn open_reader(records: &mut [u8], l: Limits, reader: u32) -> Result<(), Refusal>
    requires supported { Supported l }
    requires holds_shaped { HoldsShaped l records.old }
    ensures { MetBeside l (open_reader reader) records.old records.new (reply result) }
{
    let at = reader_cell(l, reader)?;
    if 0 < cells::get(records, at) {
        return Err(Refusal::ReaderOpen);
    }
    let timestamp = cells::get(records, layout::TIMESTAMP);
    cells::put(records, at, timestamp + 1);
    Ok(())
}

// The version that an open reader sees of an object: looked up in the block of its versions by the reader's stamp, which its cell has with 1 added.
pub fn read(records: &[u8], l: Limits, reader: u32, object: u32) -> Result<Version, Refusal>
    requires supported { Supported l }
    requires holds_shaped { HoldsShaped l records.now }
    ensures { MetBeside l (read-call reader object) records.now records.now (reading result) }
{
    let at = reader_cell(l, reader)?;
    let since = cells::get(records, at)
        .checked_sub(1)
        .ok_or(Refusal::ReaderNotOpen)?;
    let o = object as usize;
    if cells::get(records, layout::size_at(l)) as usize <= o {
        return Err(Refusal::UnknownObject);
    }
    let first = layout::object_at(l, o) * 8;
    let end = first + layout::bounds_at(l) * 8;
    let seen = versions::lookup(&records[first..end], since);
    let stamp = seen.stamp as u32;
    Ok(Version {
        value: seen.value,
        timestamp: CommitTimestamp(stamp),
    })
}

// The versions that no open reader holds any more go, now that the reader with this cell is closed. Pruning takes the readers' cells beside the
// objects' blocks, and two parts of one area cannot be lent at once where one of them is written: snapshots is room for a copy of the cells.
fn prune(records: &mut [u8], l: Limits, cell: u64, snapshots: &mut [u8])
    requires { Prunable l cell records.old snapshots.old }
    ensures { Pruned l records.old records.new }
{
    let readers = layout::reader_at(l, 0) * 8;
    let size = layout::size_at(l);
    let last = size * 8;
    snapshots.copy_from_slice(&records[readers..last]);
    let n = cells::get(records, size) as usize;
    let first = layout::object_at(l, 0) * 8;
    let end = layout::object_at(l, n) * 8;
    versions_close::prune_objects(&mut records[first..end], snapshots, l.readers, n, cell);
}

// Closes an open reader, and takes out what it alone held.
pub fn close_reader(records: &mut [u8], l: Limits, reader: u32) -> Result<(), Refusal>
    requires supported { Supported l }
    requires holds_shaped { HoldsShaped l records.old }
    ensures { MetBeside l (close_reader reader) records.old records.new (reply result) }
{
    let at = reader_cell(l, reader)?;
    let cell = cells::get(records, at);
    if cell == 0 {
        return Err(Refusal::ReaderNotOpen);
    }
    cells::put(records, at, 0);
    // room for the cells of as many readers as the limits may have
    let mut snapshots = [0u8; 128];
    let end = l.readers * 8;
    prune(records, l, cell, &mut snapshots[..end]);
    Ok(())
}
