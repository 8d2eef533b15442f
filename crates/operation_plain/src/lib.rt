// A quick test of a body's operations, for bodies of plain kinds alone. It is sound and no more: what does not pass is for `operation_columns` to
// decide.
#![tactic(auto)]

ghost use Rattle.std.specs.Prelude.{◌≡◌};
ghost use Rattle.operation.specs.Body.{allowed_at, each};
ghost use Rattle.operation.specs.Columns.{Measured};
ghost use Rattle.operation_plain.specs.Plain.{Sound, forbidden_in};

// What a constant of this kind has that is to be 0: all of it, but for a set's. Quicker than a mask from an array.
fn forbidden(kind: usize, constant: u64) -> u64
    ensures { result ≡ forbidden_in kind constant }
{
    if kind == 2 { 0 } else { constant }
}

// Whether each of the m operations is of a plain kind, load to subtract, and keeps its rules, two limits and a constant of 0 (but for set). Where it
// is false, nothing is said. Early exits for the kind and the second limit; registers and constants are collected, and looked at once at the end.
pub fn plainly_allowed(body: &[u8], m: usize, objects: usize) -> bool
    requires { Measured body.now m }
    ensures { Sound result (each (allowed_at objects body.now) m) }
{
    let below = [objects, objects, 1, 4, 4];
    let mut firsts: u8 = 0;
    let mut seen: u64 = 0;
    for i in 0..m {
        let kind = operation::small(body[1 + 3 * i]);
        if 5 <= kind {
            return false;
        }
        firsts |= body[2 + 3 * i];
        if below[kind] <= operation::small(body[3 + 3 * i]) {
            return false;
        }
        seen |= forbidden(kind, words::load(body, 1 + 3 * m + 8 * i));
    }
    (firsts < 4) & (seen == 0)
}
