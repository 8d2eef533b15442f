// The shape check's rules on one object's bounds: the lower is not above the upper, and every version is inside. It decides.
//
// Why it is quick: the newest version is asked by two comparisons, which shows the order of the bounds too; that an older value is inside is then one
// comparison of differences modulo 2^64.
#![tactic(auto)]

ghost use Rattle.std.specs.Prelude.{◌≡◌, ◌+◌, ◌*◌, ◌≤◌, true, length, slice_index};
ghost use Rattle.cells.specs.Cells.{cells};
ghost use Rattle.execution.specs.Bounds.{ordered};
ghost use Rattle.versions.specs.Block.{object_cells, block_of, bounds_at, bounds_ok};
ghost use Rattle.shape_bounds.specs.Difference.{bounds_of, bits_inside, rest_inside};

// Is the value inside the bounds? All three are bits; what is compared are the signed numbers. Where one is inside, the bounds are in order.
fn inside(value: u64, lower: u64, upper: u64) -> bool
    ensures { result ≡ bits_inside lower upper value }
{
    let v = cells::signed(value);
    cells::signed(lower) <= v && v <= cells::signed(upper)
}

// Are the values of all versions but the newest, of count, inside the bounds, which are in order? One test a version: its difference to lower, modulo
// 2^64, is not above that of upper, the span. Nothing is outside the widest bounds: they are not asked. Called with a literal count, it is straight code.
fn older_inside(block: &[u8], count: usize, lower: u64, upper: u64) -> bool
    requires versions { (1 ≤ count) × ((1 + 2 * count) * 8 ≤ length block.now) }
    requires order { ordered (bounds_of lower upper) ≡ true }
    ensures { result ≡ rest_inside lower upper count 1 (cells block.now) }
{
    let span = std::num::wrapping_sub_u64(upper, lower);
    if span == u64::MAX {
        return true;
    }
    for i in 1..count {
        let v = cells::get(block, 2 + 2 * i);
        if span < std::num::wrapping_sub_u64(v, lower) {
            return false;
        }
    }
    true
}

// The bounds' rules on one object of count versions: its lower bound is not above its upper one, and every version is inside. This one decides.
// The newest version is asked first, and no order of the bounds apart from that. Called with a literal count behind the test of the versions, so that no
// bound takes a register before.
pub fn bounds_hold(object: &[u8], readers: usize, count: usize) -> bool
    requires size { length object.now ≡ object_cells readers * 8 }
    requires versions { (slice_index (block_of readers (cells object.now)) 0 ≡ count) × (1 ≤ count) × (count ≤ readers + 1) }
    ensures { result ≡ bounds_ok (bounds_at readers (cells object.now)) (block_of readers (cells object.now)) }
{
    let w = versions::width(readers);
    let end = w * 8;
    let lower = cells::get(object, w);
    let upper = cells::get(object, w + 1);
    if inside(cells::get(object, 2), lower, upper) {
        return older_inside(&object[..end], count, lower, upper);
    }
    false
}

// The bounds' rules on one object of any number of versions that its block has room for. This one decides.
pub fn bounds_ok(object: &[u8], readers: usize) -> bool
    requires size { length object.now ≡ object_cells readers * 8 }
    requires versions { (1 ≤ slice_index (block_of readers (cells object.now)) 0) × (slice_index (block_of readers (cells object.now)) 0 ≤ readers + 1) }
    ensures { result ≡ bounds_ok (bounds_at readers (cells object.now)) (block_of readers (cells object.now)) }
{
    bounds_hold(object, readers, cells::get(object, 0) as usize)
}
