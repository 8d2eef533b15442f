// Signed 64-bit numbers: checked sums and differences, and division to the nearest whole number.
#![tactic(auto)]

ghost use Rattle.std.specs.Prelude.{◌≡◌, ◌^◌, ◌≤◌, ◌<◌, ◌+ℤ◌, ◌-ℤ◌, nat_abs};
ghost use Rattle.arith.specs.Integer.{bounded, rounds_up, rounded, on_side, quotient};

// The sum, or none where it leaves 64 bits.
#[tactic(auto, using(crate::proofs::Sums::checked))]
pub fn add(x: i64, y: i64) -> Option<i64>
    ensures { result ≡ bounded (x +ℤ y) }
{
    x.checked_add(y)
}

// The difference, or none where it leaves 64 bits.
#[tactic(auto, using(crate::proofs::Sums::checked))]
pub fn subtract(x: i64, y: i64) -> Option<i64>
    ensures { result ≡ bounded (x -ℤ y) }
{
    x.checked_sub(y)
}

// The number at the distance q from 0, on the side of x. Below 0 by the bits, since q as a number may be 2^63.
fn on_side(x: i64, q: u64) -> i64
    requires { q ≤ nat_abs x }
    ensures { result ≡ on_side x q }
{
    if x < 0 {
        q.wrapping_neg().cast_signed()
    } else {
        q as i64
    }
}

// Whether the quotient q with the remainder r is rounded up: past a half it is, and at an exact half where q is odd, so that the even
// neighbour is taken. The rule for a half stands in this function alone. No branch: halves and their parity follow no pattern.
#[tactic(auto, unfolding(crate::specs::Integer::rounds_up))]
fn rounds_up(q: u64, r: u64, d: u64) -> bool
    requires { (r < d) × (d ≤ 2 ^ 63) }
    ensures { result ≡ rounds_up q r d }
{
    let twice = 2 * r;
    (d < twice) | ((d == twice) & (q % 2 == 1))
}

// A magnitude divided by d, to the nearest whole number.
fn divide_magnitude(a: u64, d: u64) -> u64
    requires { (1 ≤ d) × (d ≤ 2 ^ 63) }
    ensures { result ≡ rounded a d }
{
    let q = a / d;
    let r = a % d;
    if rounds_up(q, r, d) { q + 1 } else { q }
}

// Document 01's divide: the magnitude is divided and the sign stays, so that nothing is added before the division.
pub fn divide(x: i64, d: u64) -> i64
    requires { (1 ≤ d) × (d ≤ 1000000) }
    ensures { result ≡ quotient x d }
{
    on_side(x, divide_magnitude(x.unsigned_abs(), d))
}
