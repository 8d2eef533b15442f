// The rules of a body's operations (document 01, "A job's body"), of all eight kinds, as columns of limits. The answer is exact.
#![tactic(auto)]

ghost use Rattle.std.specs.Prelude.{◌≡◌};
ghost use Rattle.operation.specs.Body.{allowed_at, each};
ghost use Rattle.operation.specs.Columns.{Measured};

// Whether each of the m operations keeps the rules of its kind, up to the first that does not. A column for each limit, by kind, built before the
// loop; then one branch an operation on all of its limits.
pub fn each_allowed(body: &[u8], m: usize, objects: usize) -> bool
    requires { Measured body.now m }
    ensures { result ≡ each (allowed_at objects body.now) m }
{
    // Columns and no rows of a struct: no plainer, since `tested` of operation/specs/Columns states the limits by column.
    let first_below = [4, 4, 4, 4, 4, 4, 1, 4];
    let second_from = [0, 0, 0, 0, 0, 1, 0, 0];
    let second_below = [objects, objects, 1, 4, 4, m, 1, 1];
    let constant_from: [u64; 8] = [0, 0, 0, 0, 0, 0, 0, 1];
    let constant_most: [u64; 8] = [0, 0, 0xffff_ffff_ffff_ffff, 0, 0, 0, 0, 1_000_000];
    for i in 0..m {
        let kind = operation::small(body[1 + 3 * i]);
        if 8 <= kind {
            return false;
        }
        let first = operation::small(body[2 + 3 * i]);
        let second = operation::small(body[3 + 3 * i]);
        let constant = words::load(body, 1 + 3 * m + 8 * i);
        let from = second_from[kind];
        let allowed = (first < first_below[kind])
            & (from <= second)
            & (second + from * i < second_below[kind])
            & (constant_from[kind] <= constant)
            & (constant <= constant_most[kind]);
        if !allowed {
            return false;
        }
    }
    true
}
