// Final delivery: a refusal, or the commit of the transaction, its early results or its new execution.
#![tactic(auto)]

ghost use Rattle.std.specs.Prelude.{◌≡◌, true, ◌<◌};
ghost use Rattle.layout.specs.Offsets.{Sane};
ghost use Rattle.model.specs.Calls.{clients, final};
ghost use Rattle.model.specs.Answers.{delivery};
ghost use Rattle.layout.specs.Fit.{fit};
ghost use Rattle.layout.specs.Contract.{Supported, Met};
ghost use Rattle.final_decision.specs.Decide.{Local};
ghost use Rattle.final_decision.specs.FoundAt.{Found};
ghost use Rattle.final_delivery.specs.Commit.{Commits, Marking, Marks};

use execution::Entry;
use model::{Commit, CommitTimestamp, Limits, OptimisticPosition, Refusal};

// The replica's timestamp and the client's last number after a commit.
fn mark(records: &mut [u8], l: Limits, timestamp: CommitTimestamp, client: u32, sequence: u32)
    requires sane { Sane l }
    requires marking { Marking l records.old client }
    ensures { Marks l timestamp.0 client sequence records.old records.new }
{
    cells::put(records, layout::TIMESTAMP, u64::from(timestamp.0));
    cells::put(
        records,
        layout::last_at(l, client as usize),
        u64::from(sequence),
    );
}

// The final delivery of the pending transaction at this position. The places of the committed state are those of each object's newest value, before
// the commit and after it; the walk then goes on with them.
fn commit_at(
    records: &mut [u8],
    bodies: &mut [u8],
    l: Limits,
    position: OptimisticPosition,
    client: u32,
    sequence: u32,
) -> Commit
    requires sane { Sane l × Local l }
    requires found { Found l records.old bodies.old position.0 × (client < clients) }
    ensures { Commits l client sequence position.0 records.old bodies.old records.new bodies.new result }
{
    let mut places: [usize; 128] = [0; 128];
    final_walk::committed_places(records, l, &mut places);
    let mut writes = [Entry {
        object: 0,
        value: 0,
    }; 16];
    let d = final_decision::decide(records, bodies, l, position, &places, &mut writes);
    let stored = d.stored;
    let timestamp = final_admission::next_timestamp(records);
    final_commit::publish(records, l, timestamp, &writes[..stored]);
    mark(records, l, timestamp, client, sequence);
    final_requeue::leave(records, bodies, l, client, sequence);
    final_walk::walk(records, l, &mut places);
    Commit {
        outcome: d.outcome as u32,
        validated: d.validated,
        timestamp,
        stored: stored as u32,
        operations: d.operations as u32,
    }
}

// The final delivery of a key: the refusal, or the commit of its transaction where that stands. A refusal writes nothing.
pub fn deliver_final(
    records: &mut [u8],
    bodies: &mut [u8],
    l: Limits,
    client: u32,
    sequence: u32,
) -> Result<Commit, Refusal>
    requires supported { Supported l }
    requires bodies_value { fit l (records.old, bodies.old) ≡ true }
    ensures { Met l (final client sequence) (records.old, bodies.old)
        (delivery result) (records.new, bodies.new) }
{
    let position = final_admission::admit(records, l, client, sequence)?;
    let done = commit_at(records, bodies, l, position, client, sequence);
    Ok(done)
}
