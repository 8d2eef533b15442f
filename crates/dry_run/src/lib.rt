// The dry run: what the final delivery of a pending key would come to now, and the value that each object would then hold. Its tests and its choice are
// the final delivery's own; both areas are lent to be read.
#![tactic(auto)]

ghost use Rattle.std.specs.Prelude.{◌≡◌, true, length, get_or};
ghost use Rattle.cells.specs.Cells.{cells};
ghost use Rattle.layout.specs.Offsets.{Sane, size_at};
ghost use Rattle.layout.specs.Fit.{fit};
ghost use Rattle.layout.specs.Contract.{Supported};
ghost use Rattle.committed_table.specs.Committed.{Laid};
ghost use Rattle.final_walk.specs.Places.{Inside};
ghost use Rattle.final_decision.specs.Decide.{Local};
ghost use Rattle.final_decision.specs.FoundAt.{Found};
ghost use Rattle.dry_run.specs.Values.{Gathered};
ghost use Rattle.dry_run.specs.Foreseen.{Foresees};
ghost use Rattle.dry_run.specs.Previews.{Previews};

use execution::Entry;
use model::{Limits, OptimisticPosition, Preview, Refusal};

// The committed value of each object, from its place. Past the last object the array stays as it is.
fn gather(records: &[u8], l: Limits, places: &[usize; 128], values: &mut [i64; 128])
    requires sane { Sane l }
    requires laid { Laid l records.now × Inside records.now (get_or (cells records.now) (size_at l) 0) places.now × (length values.old ≡ 128) }
    ensures { Gathered records.now (get_or (cells records.now) (size_at l) 0)
        places.now values.old values.new }
{
    let n = cells::get(records, layout::size_at(l)) as usize;
    for o in 0..n {
        let place = places[o];
        values[o] = cells::get_signed(records, place);
    }
}

// What the final delivery of the pending transaction at this position would come to: the decision on it, and each object's committed value with the write
// set laid over them. The write set and the values stand in local arrays.
fn preview_at(records: &[u8], bodies: &[u8], l: Limits, position: OptimisticPosition) -> Preview
    requires sane { Sane l × Local l }
    requires found { Found l records.now bodies.now position.0 }
    ensures { Foresees l records.now bodies.now position.0 result }
{
    let mut places: [usize; 128] = [0; 128];
    final_walk::committed_places(records, l, &mut places);
    let mut writes = [Entry {
        object: 0,
        value: 0,
    }; 16];
    let d = final_decision::decide(records, bodies, l, position, &places, &mut writes);
    let stored = d.stored;
    let mut values: [i64; 128] = [0; 128];
    gather(records, l, &places, &mut values);
    execution::overlay(&mut values, &writes[..stored]);
    let timestamp = final_admission::next_timestamp(records);
    Preview {
        outcome: d.outcome as u32,
        validated: d.validated,
        timestamp,
        values,
    }
}

// The dry run of a key: the refusal that its final delivery would get, or what it would come to.
pub fn dry_run(
    records: &[u8],
    bodies: &[u8],
    l: Limits,
    client: u32,
    sequence: u32,
) -> Result<Preview, Refusal>
    requires supported { Supported l }
    requires bodies_value { fit l (records.now, bodies.now) ≡ true }
    ensures { Previews l client sequence (records.now, bodies.now) result }
{
    let position = final_admission::admit(records, l, client, sequence)?;
    Ok(preview_at(records, bodies, l, position))
}
