// Decodes a whole body (document 01, "A job's body"): the check of its rules, on bytes of any length and contents.
#![tactic(auto)]

ghost use Rattle.std.specs.Prelude.{◌≡◌, ◌+◌, ◌*◌, ◌≤◌, length};
ghost use Rattle.std.proofs.Math.Seq.{slice};
ghost use Rattle.operation.specs.Body.{allowed_at, each, decoded};
ghost use Rattle.operation.specs.Columns.{most_operations, Measured};
ghost use Rattle.cells.specs.Zeros.{zeros};

// Whether each of the m operations keeps the rules of its kind: first as if all were of plain kinds, which most bodies have alone.
fn all_allowed(body: &[u8], m: usize, objects: usize) -> bool
    requires { Measured body.now m }
    ensures { result ≡ each (allowed_at objects body.now) m }
{
    operation_plain::plainly_allowed(body, m, objects)
        || operation_columns::each_allowed(body, m, objects)
}

// Are the bytes from index from on, so many times an operation's 11, all 0? What stands behind a body in its place is whole operations' bytes. Two
// words for each, which overlap, so that no single bytes are left over.
pub fn units_zero(place: &[u8], from: usize, units: usize) -> bool
    requires { from + 11 * units ≤ length place.now }
    ensures { result ≡ zeros (slice from (from + 11 * units) place.now) }
{
    let mut seen: u64 = 0;
    for k in 0..units {
        let at = from + 11 * k;
        seen = zero_scan::or_word(place, at, seen);
        seen = zero_scan::or_word(place, at + 3, seen);
    }
    seen == 0
}

// A whole body, of any length and contents, for a replica of this many objects: its size, then its length, which makes every index below safe,
// then its operations.
pub fn decode(body: &[u8], most: usize, objects: usize) -> Option<usize>
    requires { most ≤ most_operations }
    ensures { result ≡ decoded most objects body.now }
{
    let m = operation::small(*body.first()?);
    if m < 1 {
        return None;
    }
    if most < m {
        return None;
    }
    if body.len() != operation::body_length(m) {
        return None;
    }
    if all_allowed(body, m, objects) {
        Some(m)
    } else {
        None
    }
}
