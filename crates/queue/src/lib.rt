// Pending transactions in the two lent areas: where a key stands, and its body.
#![tactic(auto)]

ghost use Rattle.std.specs.Prelude.{◌≡◌, true, ◌<◌};
ghost use Rattle.model.specs.Calls.{clients, find as find-call};
ghost use Rattle.model.specs.Answers.{finding};
ghost use Rattle.layout.specs.Offsets.{Sane};
ghost use Rattle.layout.specs.Holds.{Holding};
ghost use Rattle.layout.specs.Fit.{fit};
ghost use Rattle.layout.specs.Contract.{Supported, Met};
ghost use Rattle.queue.specs.Place.{Located, Spent};
ghost use Rattle.queue.specs.Shown.{Shown};

use model::{Found, Limits, OptimisticPosition, Refusal};

// Where a transaction stands among the pending ones, in optimistic order, if it is one of them, and how many there are.
#[derive(Clone, Copy)]
pub struct Place {
    pub position: Option<OptimisticPosition>,
    pub count: usize,
}

// Whether a client's key is spent: its sequence number is not above the client's last number.
pub fn is_spent(records: &[u8], l: Limits, client: u32, sequence: u32) -> bool
    requires sane { Sane l × (client < clients) }
    requires holding { Holding l records.now }
    ensures { Spent l records.now client sequence result }
{
    u64::from(sequence) <= cells::get(records, layout::last_at(l, client as usize))
}

// Looks a transaction up among the pending ones.
pub fn locate(records: &[u8], l: Limits, client: u32, sequence: u32) -> Place
    requires sane { Sane l }
    requires holding { Holding l records.now }
    ensures { Located l records.now client sequence result }
{
    let count = cells::get(records, layout::pending_at(l)) as usize;
    let at = layout::row_at(l, 0) * 8;
    let key = layout::key_cell(client, sequence);
    let position = match layout::key_index(&records[at..], layout::row_width(l), count, key) {
        Some(i) => Some(OptimisticPosition(i as u32)),
        None => None,
    };
    Place { position, count }
}

// Find: the optimistic position of a pending transaction and the length of its body.
pub fn find(
    records: &[u8],
    bodies: &[u8],
    l: Limits,
    client: u32,
    sequence: u32,
) -> Result<Found, Refusal>
    requires supported { Supported l }
    requires bodies_value { fit l (records.now, bodies.now) ≡ true }
    ensures { Met l (find-call client sequence) (records.now, bodies.now)
        (finding result) (records.now, bodies.now) }
{
    if model::CLIENTS <= client {
        return Err(Refusal::UnknownClient);
    }
    let place = locate(records, l, client, sequence);
    let position = place.position.ok_or(Refusal::NotPending)?;
    let at = layout::body_at(l, position.0 as usize);
    let length = operation::body_length(operation::small(bodies[at])) as u32;
    Ok(Found { position, length })
}

// Show body: the part of the body area that is a pending transaction's body; the empty part where Find refuses.
pub fn show_body<'a>(
    records: &[u8],
    bodies: &'a [u8],
    l: Limits,
    client: u32,
    sequence: u32,
) -> &'a [u8]
    requires supported { Supported l }
    requires bodies_value { fit l (records.now, bodies.now) ≡ true }
    ensures { Shown l records.now bodies.entry result client sequence }
{
    let Ok(found) = find(records, bodies, l, client, sequence) else {
        return &bodies[..0];
    };
    let index = found.position.0 as usize;
    let n = found.length as usize;
    let at = layout::body_at(l, index);
    let end = at + n;
    &bodies[at..end]
}
