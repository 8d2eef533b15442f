// A quick test of one block's versions beside the open readers, which stand sorted in d as `shape_readers` has them. It is sound and no more: what passes
// meets the shape check's rules. `block_alone`, for no open reader, decides.
//
// Why it is quick: the number of versions is a literal at each call, so that the versions and the cells behind them are straight code; the oldest
// version is held by the earliest open reader or by none; and in between an index goes down the sorted readers as the versions get older.
#![tactic(auto)]

ghost use Rattle.std.specs.Prelude.{◌≡◌, ◌&&◌, List, [], ℕ, ◌+◌, ◌*◌, ◌-◌, ◌≤◌, ltb, leb, length, get_or};
ghost use Rattle.cells.specs.Cells.{cells};
ghost use Rattle.versions.specs.Block.{width, block_ok};
ghost use Rattle.shape_block_quick.specs.Quick.{Sound};

use shape_readers::{Sorted, down};

// The test where there are count versions, two or more. Version k is held where the reader found by going down from the last one's is above its
// stamp; the oldest is held by the earliest reader, whose cell is low, or by none. Called with a literal count, the loop becomes straight code.
pub fn quick(
    block: &[u8],
    d: &Sorted,
    readers: usize,
    timestamp: u64,
    low: u64,
    count: usize,
) -> bool
    requires size { length block.now ≡ width readers * 8 }
    requires versions { (get_or (cells block.now) 0 0 ≡ count) × (2 ≤ count) × (count ≤ readers + 1) }
    ensures { Sound readers timestamp low d.now.places block.now result }
{
    let newest = cells::get(block, 1);
    let mut upper = newest;
    let mut i = d.last;
    for k in 1..count - 1 {
        let s = cells::get(block, 1 + 2 * k);
        i = down(d, i, upper);
        if d.places[i] <= s {
            return false;
        }
        upper = s;
    }
    (cells::get(block, 2 * count - 1) < low)
        & (low <= upper)
        & (newest <= timestamp)
        & cells::cells_zero(block, 1 + 2 * count, versions::width(readers))
}

// Is the reader c one that sees version k, and not the newer one before it? Both tests without a branch.
fn sees(block: &[u8], c: u64, k: usize) -> bool
    requires { (1 ≤ k) × ((2 + 2 * k) * 8 ≤ length block.now) }
    ensures { result ≡ ltb (get_or (cells block.now) (1 + 2 * k) 0) c && leb c (get_or (cells block.now) (2 * k - 1) 0) }
{
    (cells::get(block, 1 + 2 * k) < c) & (c <= cells::get(block, 2 * k - 1))
}

// The test where there is one version more than readers. Each reader then sees another of the older versions, so that none is looked for: the latest
// is asked about version 1, the earliest about the oldest. All are asked, without a branch; called with a literal count, it is straight code.
pub fn full(
    block: &[u8],
    d: &[u64; 17],
    readers: usize,
    timestamp: u64,
    low: u64,
    count: usize,
) -> bool
    requires size { length block.now ≡ width readers * 8 }
    requires versions { (get_or (cells block.now) 0 0 ≡ count) × (2 ≤ count) × (count ≤ readers + 1) × (count ≤ 16) }
    ensures { Sound readers timestamp low d.now block.now result }
{
    let mut held = true;
    for k in 1..count {
        held &= sees(block, d[count - k], k);
    }
    let behind = 1 + 2 * count;
    held & (cells::get(block, 2 * count - 1) < low)
        & (cells::get(block, 1) <= timestamp)
        & cells::cells_zero(block, behind, versions::width(readers))
}

// The test where there is one version: it serves every open reader, and is not above the timestamp, exactly if it is below low.
pub fn single(block: &[u8], readers: usize, low: u64) -> bool
    requires { (length block.now ≡ width readers * 8) × (get_or (cells block.now) 0 0 ≡ 1) }
    ensures { (timestamp : ℕ) (d : List ℕ) → Sound readers timestamp low d block.now result }
{
    if cells::get(block, 1) < low {
        return cells::cells_zero(block, 3, versions::width(readers));
    }
    false
}

// The versions' rules on one block where no reader is open: one version, not above the timestamp. This one decides.
pub fn block_alone(block: &[u8], readers: usize, timestamp: u64) -> bool
    requires { length block.now ≡ width readers * 8 }
    ensures { result ≡ block_ok readers timestamp [] (cells block.now) }
{
    if cells::get(block, 0) == 1 {
        if cells::get(block, 1) <= timestamp {
            return cells::cells_zero(block, 3, versions::width(readers));
        }
    }
    false
}
