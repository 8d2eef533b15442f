// One object's versions in a block of cells: a count, then stamp and value of each version, the newest first; unused cells are 0. Behind an object's
// block stand its lower and its upper bound.
// A reader's cell is 0 where it is closed, else its stamp + 1: snapshots are the cells of all readers. Their number goes beside them, since it is
// the width of a block too.
#![tactic(auto)]

ghost use Rattle.std.specs.Prelude.{◌≡◌, ◌&&◌, ◌*◌, ◌^◌, ◌<◌, ltb, leb, length};
ghost use Rattle.cells.specs.Cells.{cells};
ghost use Rattle.model.specs.Replica.{as_of};
ghost use Rattle.model.specs.LookedAt.{looked_at};
ghost use Rattle.versions.specs.Block.{width as block-width, object_cells as cells-of-object, block_versions, SortedBlock, between, version_seen};

// The cells of a block: a count, and a stamp and a value for one version more than there are readers.
pub fn width(readers: usize) -> usize
    requires { readers < 2 ^ 60 }
    ensures { result ≡ block-width readers }
{
    3 + 2 * readers
}

// The cells of an object: its block and its two bounds.
pub fn object_cells(readers: usize) -> usize
    requires { readers < 2 ^ 60 }
    ensures { result ≡ cells-of-object readers }
{
    width(readers) + 2
}

// Is c an open reader's cell whose stamp is s or more, and below upper? A closed reader's 0 is above no s.
fn inside(c: u64, s: u64, upper: u64) -> bool
    ensures { result ≡ ltb s c && leb c upper }
{
    s < c && c <= upper
}

// Does a reader hold a version of stamp s, the next newer one being of stamp upper? Asks the readers one by one, up to the first that does.
pub fn some_between(snapshots: &[u8], readers: usize, s: u64, upper: u64) -> bool
    requires { length snapshots.now ≡ readers * 8 }
    ensures { result ≡ between (cells snapshots.now) s upper }
{
    for i in 0..readers {
        if inside(cells::get(snapshots, i), s, upper) {
            return true;
        }
    }
    false
}

// A version as it is seen, and how many were looked at for it. No Option where none is seen: the clause `seen` promises `as_of`, which has 0 there.
#[derive(Drop)]
pub struct Seen {
    pub stamp: u64,
    pub value: i64,
    pub looked: usize,
}

// What a reader of this stamp sees: the newest version whose stamp is not above it. Goes from the newest version down, counting those above, and ends at
// the first that is not; where all are, stamp and value are 0. No block that passed the shape check has that for an open reader's stamp or the replica's own.
pub fn lookup(block: &[u8], stamp: u64) -> Seen
    requires { SortedBlock block.now }
    ensures seen { version_seen result ≡ as_of stamp (block_versions (cells block.now)) }
    ensures looked { result.looked ≡ looked_at stamp (block_versions (cells block.now)) }
{
    let count = cells::get(block, 0) as usize;
    for above in 0..count {
        let k = 1 + 2 * above;
        let s = cells::get(block, k);
        if s <= stamp {
            let looked = above + 1;
            return Seen {
                stamp: s,
                value: cells::get_signed(block, k + 1),
                looked,
            };
        }
    }
    let looked = count + 1;
    Seen {
        stamp: 0,
        value: 0,
        looked,
    }
}
