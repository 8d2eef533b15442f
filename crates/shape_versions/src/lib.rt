// The shape check of objects' versions and bounds, each object a block of cells and two bounds behind it, as `versions` has them.
//
// Three forms: `objects_alone` where no reader is open, `shape_versions_quick` beside open readers, and `objects_general`, which asks the readers version
// by version, for what the quick test does not pass: a damaged area, or versions and readers in numbers that it has no arm for.
#![tactic(auto)]

ghost use Rattle.std.specs.Prelude.{◌≡◌, [], ◌+◌, ◌*◌, ◌≤◌, ◌<◌, ◌^◌, length};
ghost use Rattle.cells.specs.Cells.{cells};
ghost use Rattle.versions.specs.Block.{width, object_cells, block_ok, object_ok, blocks_ok, lower, lowest, chained, LentBlocks};

use shape_versions_quick::{Beside, alone, each_object, objects_quick};

// One step of `lowest_open`: c where it is an open reader's cell below top, else top.
fn lower_of(top: u64, c: u64) -> u64
    ensures { result ≡ lower top c }
{
    if 0 < c {
        if c < top { c } else { top }
    } else {
        top
    }
}

// The smallest open reader's cell, or top: what the oldest version of each object is to be below. One pass, low being the smallest so far.
fn lowest_open(snapshots: &[u8], readers: usize, top: u64) -> u64
    requires { length snapshots.now ≡ readers * 8 }
    ensures { result ≡ lowest top (cells snapshots.now) }
{
    let mut low = top;
    for i in 0..readers {
        low = lower_of(low, cells::get(snapshots, i));
    }
    low
}

// The versions after the newest: each is held by a reader that does not see the one before it, so that their stamps fall, and the last serves
// every open reader. From the newest down, upper being the stamp of the version before the k-th.
fn chain_ok(block: &[u8], b: Beside, count: usize) -> bool
    requires size { length block.now ≡ width b.readers * 8 }
    requires versions { (0 < count) × (count ≤ b.readers + 1) }
    ensures { result ≡ chained (cells b.entry.snapshots.now) b.entry.low count (cells block.now) }
{
    let mut upper = cells::get(block, 1);
    for k in 1..count {
        let s = cells::get(block, 1 + 2 * k);
        if !versions::some_between(b.snapshots, b.readers, s, upper) {
            return false;
        }
        upper = s;
    }
    upper < b.low
}

// The versions' rules on one block.
fn block_ok_general(block: &[u8], b: Beside) -> bool
    requires { length block.now ≡ width b.readers * 8 }
    ensures { result ≡ block_ok b.entry.readers b.entry.timestamp (cells b.entry.snapshots.now) (cells block.now) }
{
    let count = cells::get(block, 0) as usize;
    if count == 0 {
        return false;
    }
    if b.readers + 1 < count {
        return false;
    }
    if b.timestamp < cells::get(block, 1) {
        return false;
    }
    if cells::cells_zero(block, 1 + 2 * count, versions::width(b.readers)) {
        chain_ok(block, b, count)
    } else {
        false
    }
}

// The same, shorter where there is one version.
fn block_ok(block: &[u8], b: Beside) -> bool
    requires { length block.now ≡ width b.readers * 8 }
    ensures { result ≡ block_ok b.entry.readers b.entry.timestamp (cells b.entry.snapshots.now) (cells block.now) }
{
    if cells::get(block, 0) == 1 {
        if cells::get(block, 1) < b.low {
            return cells::cells_zero(block, 3, versions::width(b.readers));
        }
        return false;
    }
    block_ok_general(block, b)
}

// The shape check's rules on one object: its block, and behind it its bounds, which are asked where the count was found to be one that has room.
fn object_ok(object: &[u8], b: Beside) -> bool
    requires { length object.now ≡ object_cells b.readers * 8 }
    ensures { result ≡ object_ok b.entry.readers b.entry.timestamp (cells b.entry.snapshots.now) (cells object.now) }
{
    let end = versions::width(b.readers) * 8;
    if block_ok(&object[..end], b) {
        return shape_bounds::bounds_ok(object, b.readers);
    }
    false
}

// The same on n objects, which stand one after another, up to the first that fails.
fn objects_general(blocks: &[u8], b: Beside, n: usize) -> bool
    requires { (length blocks.now ≡ n * (object_cells b.readers * 8)) × (b.readers < 2 ^ 32) }
    ensures { result ≡ blocks_ok b.entry.readers b.entry.timestamp (cells b.entry.snapshots.now) n (cells blocks.now) }
{
    let width = versions::object_cells(b.readers) * 8;
    each_object(blocks, width, n, |object| object_ok(object, b))
}

// The same in two halves, so that `objects_general` is called twice and stays a function of its own. Made part of the whole check, it would keep the
// readers' cells in registers that the quick test's loop needs, and the place of the object would go through memory at each turn.
fn objects_by_halves(blocks: &[u8], b: Beside, n: usize) -> bool
    requires { (length blocks.now ≡ n * (object_cells b.readers * 8)) × (b.readers < 2 ^ 32) }
    ensures { result ≡ blocks_ok b.entry.readers b.entry.timestamp (cells b.entry.snapshots.now) n (cells blocks.now) }
{
    let half = n / 2;
    let mid = half * (versions::object_cells(b.readers) * 8);
    if objects_general(&blocks[..mid], b, half) {
        return objects_general(&blocks[mid..], b, n - half);
    }
    false
}

// The same where no reader is open: a loop of its own, with registers enough for the one form that is left.
fn objects_alone(blocks: &[u8], readers: usize, n: usize, timestamp: u64) -> bool
    requires { (length blocks.now ≡ n * (object_cells readers * 8)) × (readers < 2 ^ 32) }
    ensures { result ≡ blocks_ok readers timestamp [] n (cells blocks.now) }
{
    let width = versions::object_cells(readers) * 8;
    each_object(blocks, width, n, |object| alone(object, readers, timestamp))
}

// The shape check's rules on n objects, which stand one after another: by the form for no open reader, else by the quick test, and by the
// general form where that does not pass. With 7 readers the quick test passes wherever the rules are met, so that only a damaged area is looked at
// twice.
pub fn objects_ok(blocks: &[u8], snapshots: &[u8], readers: usize, n: usize, timestamp: u64) -> bool
    requires lent { LentBlocks readers n snapshots.now blocks.now }
    requires timestamp { timestamp < 2 ^ 63 }
    ensures { result ≡ blocks_ok readers timestamp (cells snapshots.now) n (cells blocks.now) }
{
    if cells::cells_zero(snapshots, 0, readers) {
        return objects_alone(blocks, readers, n, timestamp);
    }
    let low = lowest_open(snapshots, readers, timestamp + 1);
    let b = Beside {
        snapshots,
        readers,
        timestamp,
        low,
    };
    if objects_quick(blocks, b, n) {
        return true;
    }
    objects_by_halves(blocks, b, n)
}
