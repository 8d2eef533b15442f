// A new version in an object's block, and the versions that no open reader holds any more out of it. Blocks are those of `versions`; what a
// reader's close takes out is `versions_close`'s.
#![tactic(auto)]

ghost use Rattle.std.specs.Prelude.{◌+◌, ◌*◌, ◌≤◌, ◌≡◌, length};
ghost use Rattle.cells.specs.Cells.{cells};
ghost use Rattle.versions_push.specs.Trimmed.{Room, Pair, Trimmed, Pushable, rebuilt_block, pushed_block};

// Puts one version, stamp s and value v, into the cells j and j + 1.
fn put_pair(block: &mut [u8], j: usize, s: u64, v: u64)
    requires { j * 8 + 16 ≤ length block.old }
    ensures { Pair block.old block.new j s v }
{
    cells::put(block, j, s);
    cells::put(block, j + 1, v);
}

// Puts the version (stamp, value), and after it those of the count versions from cell start on that are held, to the front. The cell after them.
// One version is in hand, (s, v): it is written only when the next one that stays has been read, so that no write overtakes the reading.
fn keep_held(
    block: &mut [u8],
    snapshots: &[u8],
    readers: usize,
    start: usize,
    count: usize,
    stamp: u64,
    value: u64,
) -> usize
    requires { Room readers start count stamp snapshots.now block.old }
    ensures { Trimmed (cells snapshots.now) stamp value start count block.old block.new result }
{
    let mut upper = stamp;
    let mut s = stamp;
    let mut v = value;
    let mut j = 1;
    for k in 0..count {
        let i = start + 2 * k;
        let t = cells::get(block, i);
        let w = cells::get(block, i + 1);
        if versions::some_between(snapshots, readers, t, upper) {
            put_pair(block, j, s, v);
            s = t;
            v = w;
            j += 2;
        }
        upper = t;
    }
    put_pair(block, j, s, v);
    j + 2
}

// The block with the version (stamp, value), and after it those of the count versions from cell start on that are held: these to the front,
// zeros behind them, and their number before them.
fn rebuild(
    block: &mut [u8],
    snapshots: &[u8],
    readers: usize,
    start: usize,
    count: usize,
    stamp: u64,
    value: u64,
)
    requires { Room readers start count stamp snapshots.now block.old }
    ensures { block.new ≡ rebuilt_block readers snapshots.now stamp value start count block.old }
{
    let end = keep_held(block, snapshots, readers, start, count, stamp, value);
    let from = end * 8;
    let to = versions::width(readers) * 8;
    cells::fill_zero(block, from, to);
    let held = ((end - 1) / 2) as u64;
    cells::put(block, 0, held);
}

// A commit's store: a version newer than all goes to the front of a block that passed the check, and those no longer held go.
pub fn push_version(block: &mut [u8], snapshots: &[u8], readers: usize, stamp: u64, value: i64)
    requires { Pushable readers stamp snapshots.now block.old }
    ensures { block.new ≡ pushed_block readers snapshots.now stamp value block.old }
{
    let count = cells::get(block, 0) as usize;
    let v = cells::unsigned(value);
    rebuild(block, snapshots, readers, 1, count, stamp, v);
}
