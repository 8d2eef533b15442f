// Opening: both lent areas are filled, whatever is in them, with the replica of the start values, their bounds and the start timestamp.
// Values, lower and upper bounds are three slices, as the C interface gives them, so that nothing is copied.
#![tactic(auto)]

ghost use Rattle.std.specs.Prelude.{◌≡◌, true, not, length};
ghost use Rattle.model.specs.Lists.{all₂};
ghost use Rattle.model.specs.Calls.{by_values, miscounted, bounds_from, starts_inside};
ghost use Rattle.model.specs.Start.{start_of};
ghost use Rattle.model.specs.Replica.{opened};
ghost use Rattle.layout.specs.Layout.{print};
ghost use Rattle.opening.specs.Inside.{BoundsEach};
ghost use Rattle.opening.specs.Opening.{Lent, Blank, Started};

use model::Limits;

// Are there 1 to as many objects as the limit, and as many values and bounds of each kind?
pub fn counts_ok(l: Limits, n: usize, values: &[i64], lower: &[i64], upper: &[i64]) -> bool
    ensures { result ≡ not (miscounted l n values.now lower.now upper.now) }
{
    0 < n && n <= l.objects && values.len() == n && lower.len() == n && upper.len() == n
}

// What is missing to the widest bounds. Where it is 0, the value is inside them, whatever it is: it is not looked at.
fn short_of_widest(value: i64, lower: i64, upper: i64) -> u64
    ensures { result ≡ 0 → starts_inside (record { lower = lower; upper = upper }) value ≡ true }
{
    let below = std::num::wrapping_sub_u64(cells::unsigned(lower), 0x8000_0000_0000_0000);
    let above = std::num::wrapping_sub_u64(0x7fff_ffff_ffff_ffff, cells::unsigned(upper));
    below | above
}

// Are all bounds the widest, as those of a replica that is opened without any? Where it is true, every start value lies inside; else nothing is said.
// An OR over all, with no early exit, so that LLVM makes vectors of it: it takes half the time of the tests one by one.
fn all_widest(values: &[i64], lower: &[i64], upper: &[i64]) -> bool
    requires { BoundsEach values.now lower.now upper.now }
    ensures { result ≡ true → all₂ starts_inside (bounds_from lower.now upper.now) values.now ≡ true }
{
    let mut missing: u64 = 0;
    for i in 0..values.len() {
        missing |= short_of_widest(values[i], lower[i], upper[i]);
    }
    missing == 0
}

// Does every start value lie inside its bounds? Then no lower bound is above its upper one either. Value by value, up to the first that does not.
fn each_inside(values: &[i64], lower: &[i64], upper: &[i64]) -> bool
    requires { BoundsEach values.now lower.now upper.now }
    ensures { result ≡ all₂ starts_inside (bounds_from lower.now upper.now) values.now }
{
    for i in 0..values.len() {
        let v = values[i];
        let lo = lower[i];
        let hi = upper[i];
        if v < lo || hi < v {
            return false;
        }
    }
    true
}

// The same, and quickly where the bounds are the widest: nothing is outside them.
pub fn starts_inside(values: &[i64], lower: &[i64], upper: &[i64]) -> bool
    requires { BoundsEach values.now lower.now upper.now }
    ensures { result ≡ all₂ starts_inside (bounds_from lower.now upper.now) values.now }
{
    all_widest(values, lower, upper) || each_inside(values, lower, upper)
}

// Writes each object's one version and its bounds; the objects are zeros.
fn put_objects(
    objects: &mut [u8],
    readers: usize,
    values: &[i64],
    lower: &[i64],
    upper: &[i64],
    timestamp: u64,
)
    requires { Blank readers objects.old values.now lower.now upper.now }
    ensures { Started readers timestamp values.now lower.now upper.now objects.new }
{
    let width = versions::width(readers);
    for i in 0..values.len() {
        let at = i * (width + 2);
        cells::put(objects, at, 1);
        cells::put(objects, at + layout::NEWEST_STAMP, timestamp);
        cells::put_signed(objects, at + layout::NEWEST_VALUE, values[i]);
        let bounds = at + width;
        cells::put_signed(objects, bounds, lower[i]);
        cells::put_signed(objects, bounds + 1, upper[i]);
    }
}

// One zero fill of each area, then the cells that are not 0. The record area last: it is at hand then where the first cache has 32 KB, less than both.
pub fn fill(
    records: &mut [u8],
    bodies: &mut [u8],
    l: Limits,
    values: &[i64],
    lower: &[i64],
    upper: &[i64],
    timestamp: u32,
)
    requires { Lent l records.old bodies.old values.now lower.now upper.now }
    ensures { (records.new, bodies.new)
        ≡ print l (opened l (start_of (by_values (length values.now) values.now lower.now upper.now timestamp))) }
{
    let bodies_end = bodies.len();
    cells::fill_zero(bodies, 0, bodies_end);
    let records_end = records.len();
    cells::fill_zero(records, 0, records_end);
    let t = u64::from(timestamp);
    let n = values.len();
    let first = layout::object_at(l, 0) * 8;
    let end = layout::object_at(l, n) * 8;
    put_objects(&mut records[first..end], l.readers, values, lower, upper, t);
    cells::put(records, layout::size_at(l), n as u64);
    cells::put(records, 0, t);
}
