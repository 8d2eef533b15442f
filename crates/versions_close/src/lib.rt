// What a reader's close takes out of the objects' versions. A reader that closes lets go one version an object at most, the one that it saw: the
// newest that is not above its stamp, if it is not the newest of all and no other reader sees it. Blocks and objects are those of `versions`.
// c is the closed reader's cell.
#![tactic(auto)]

ghost use Rattle.std.specs.Prelude.{◌≡◌, ℕ, ◌*◌, ◌≤◌, ◌<◌, ◌^◌, ltb, leb, length, get_or, drop};
ghost use Rattle.cells.specs.Cells.{cells, uncells};
ghost use Rattle.versions.specs.Block.{width, between, LentBlocks};
ghost use Rattle.versions_close.specs.Closing.{seen, less_one, Closable, Closed, AllChecked, pruned};

// The readers' cells on either side of the closed one's, among the others: the greatest that is not above it, 0 where there is none, and the least
// above it, the largest number where there is none.
#[derive(Clone, Copy)]
struct Neighbours {
    upto: u64,
    above: u64,
}

// A version older than upto, which c sees, is seen by another reader too, and so is one whose next newer one is not below above. One pass, p and q
// being the greatest and the least so far.
fn neighbours_of(snapshots: &[u8], readers: usize, c: u64) -> Neighbours
    requires { length snapshots.now ≡ readers * 8 }
    ensures upto { (s : ℕ) → between (cells snapshots.now) s c ≡ ltb s result.upto }
    ensures above { (u : ℕ) → u < 2 ^ 63 → between (cells snapshots.now) c u ≡ leb result.above u }
{
    let mut p: u64 = 0;
    let mut q = u64::MAX;
    for i in 0..readers {
        let x = cells::get(snapshots, i);
        if x <= c {
            p = p.max(x);
        } else {
            q = q.min(x);
        }
    }
    Neighbours { upto: p, above: q }
}

// The place of the version that c sees: how many versions have a stamp of c or more. Stamps fall, and unused cells are 0, so it is enough to count
// among the first readers places, without a branch: where the first below c stands differs from object to object.
fn not_seen(block: &[u8], readers: usize, c: u64) -> usize
    requires { length block.now ≡ width readers * 8 }
    ensures { (result ≡ seen c readers (drop 1 (cells block.now))) × (result ≤ readers) }
{
    let mut j = 0;
    for i in 0..readers {
        j += usize::from(c <= cells::get(block, 1 + 2 * i));
    }
    j
}

// Takes version j out: those behind it move up by one version's two cells, two zeros come behind them, and the count is one less.
fn drop_version(block: &mut [u8], readers: usize, j: usize)
    requires { (length block.old ≡ width readers * 8) × (j ≤ readers) × (0 < get_or (cells block.old) 0 0) }
    ensures { block.new ≡ uncells (less_one readers j (cells block.old)) }
{
    let count = cells::get(block, 0);
    let to = (1 + 2 * j) * 8;
    let end = (1 + 2 * readers) * 8;
    cells::move_down(block, to, to + 16, end - to);
    cells::fill_zero(block, end, end + 16);
    cells::put(block, 0, count - 1);
}

// Takes out what the closed reader alone held of one object: nothing where it saw the newest version, or where a reader on either side of it
// sees the same version; else that version.
fn close_block(block: &mut [u8], readers: usize, c: u64, beside: Neighbours)
    requires { Closable readers c beside.upto beside.above block.old }
    ensures { Closed readers c beside.upto beside.above block.old block.new }
{
    if cells::get(block, 1) < c {
        return;
    }
    let j = not_seen(block, readers, c);
    if cells::get(block, 2 * j - 1) < beside.above && beside.upto <= cells::get(block, 1 + 2 * j) {
        drop_version(block, readers, j);
    }
}

// The versions that no reader holds go from n objects, which stand one after another. Their blocks passed the shape check while the reader with the
// cell c was open, and snapshots are the readers' cells without it. Its neighbours are looked for once, then object by object: the block, w bytes, is
// lent, and the next object begins behind the two bounds, which stay as they are.
pub fn prune_objects(blocks: &mut [u8], snapshots: &[u8], readers: usize, n: usize, c: u64)
    requires lent { LentBlocks readers n snapshots.now blocks.old }
    requires open { 0 < c }
    requires checked { AllChecked readers c (cells snapshots.now) n (cells blocks.old) }
    ensures { blocks.new ≡ pruned readers (cells snapshots.now) n blocks.old }
{
    let beside = neighbours_of(snapshots, readers, c);
    let w = versions::width(readers) * 8;
    let step = versions::object_cells(readers) * 8;
    for k in 0..n {
        let at = k * step;
        close_block(&mut blocks[at..at + w], readers, c, beside);
    }
}
