// The operations of a transaction's body (document 01, "A job's body"): their kinds, their rules, and one operation decoded from the bytes of a body.
#![tactic(auto)]

ghost use Rattle.std.specs.Prelude.{◌≡◌, ◌<◌, ◌≤◌, length};
ghost use Rattle.operation.specs.Body.{size, operation_at, body_length};

// A decoded operation: registers and objects by number, a constant only where the kind carries one.
#[derive(Drop)]
pub enum Operation {
    Load(usize, usize),
    Store(usize, usize),
    Set(usize, i64),
    Add(usize, usize),
    Subtract(usize, usize),
    Skip(usize, usize),
    Fail,
    Divide(usize, u64),
}

// A byte as a number.
pub fn small(x: u8) -> usize
    ensures { (result ≡ x) × (result < 256) }
{
    usize::from(x)
}

// How many bytes a body of m operations has.
pub fn body_length(m: usize) -> usize
    requires { m ≤ 65536 }
    ensures { result ≡ body_length m }
{
    1 + 11 * m
}

// Operation i of a body that was checked: no rule is tested again, and a constant is loaded only where the kind carries one.
pub fn operation_at(body: &[u8], i: usize) -> Operation
    requires { (i < size body.now) × (length body.now ≡ body_length (size body.now)) }
    ensures { result ≡ operation_at body.now i }
{
    let m = small(body[0]);
    let kind = small(body[1 + 3 * i]);
    let first = small(body[2 + 3 * i]);
    let second = small(body[3 + 3 * i]);
    let at = 1 + 3 * m + 8 * i;
    match kind {
        0 => Operation::Load(first, second),
        1 => Operation::Store(first, second),
        2 => Operation::Set(first, cells::signed(words::load(body, at))),
        3 => Operation::Add(first, second),
        4 => Operation::Subtract(first, second),
        5 => Operation::Skip(first, second),
        6 => Operation::Fail,
        _ => Operation::Divide(first, words::load(body, at)),
    }
}
