// Optimistic delivery: the refusals, and a transaction appended to the pending ones.
#![tactic(auto)]

ghost use Rattle.std.specs.Prelude.{◌≡◌, true};
ghost use Rattle.model.specs.Calls.{optimistic};
ghost use Rattle.model.specs.Answers.{reply};
ghost use Rattle.layout.specs.Offsets.{Sane};
ghost use Rattle.layout.specs.Fit.{fit};
ghost use Rattle.layout.specs.Contract.{Supported, Met};
ghost use Rattle.optimistic_delivery.specs.Delivered.{Room, Appended};

use layout::key_cell;
use model::{Limits, Refusal};

// Puts a transaction at its start into the first unused place: its key, the count and its body. All else of an unused place is 0 already.
fn append(records: &mut [u8], bodies: &mut [u8], l: Limits, count: usize, key: u64, body: &[u8])
    requires sane { Sane l }
    requires room { Room l records.old bodies.old count body.now }
    ensures { Appended l records.old bodies.old count key body.now records.new bodies.new }
{
    let next = count + 1;
    cells::put(records, layout::row_at(l, count), key);
    cells::put(records, layout::pending_at(l), next as u64);
    let at = layout::body_at(l, count);
    let end = at + body.len();
    bodies[at..end].copy_from_slice(body);
}

// Optimistic delivery: the transaction becomes the last of the pending ones. A refusal writes nothing.
pub fn deliver_optimistic(
    records: &mut [u8],
    bodies: &mut [u8],
    l: Limits,
    client: u32,
    sequence: u32,
    body: &[u8],
) -> Result<(), Refusal>
    requires supported { Supported l }
    requires bodies_value { fit l (records.old, bodies.old) ≡ true }
    ensures { Met l (optimistic client sequence body.now) (records.old, bodies.old)
        (reply result) (records.new, bodies.new) }
{
    if model::CLIENTS <= client {
        return Err(Refusal::UnknownClient);
    }
    if queue::is_spent(records, l, client, sequence) {
        return Err(Refusal::SpentKey);
    }
    let place = queue::locate(records, l, client, sequence);
    let count = place.count;
    if place.position.is_some() {
        return Err(Refusal::AlreadyPending);
    }
    let objects = cells::get(records, layout::size_at(l)) as usize;
    let Some(_) = operation_decoder::decode(body, l.operations, objects) else {
        return Err(Refusal::MalformedBody);
    };
    if l.pending <= count {
        return Err(Refusal::QueueFull);
    }
    append(records, bodies, l, count, key_cell(client, sequence), body);
    Ok(())
}
