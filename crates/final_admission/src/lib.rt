// The tests of a final delivery, on the record area alone: whether it is accepted, where its transaction stands, and which timestamp it takes.
#![tactic(auto)]

ghost use Rattle.layout.specs.Offsets.{Sane};
ghost use Rattle.layout.specs.Holds.{Holding};
ghost use Rattle.final_admission.specs.Admission.{Admits};
ghost use Rattle.final_admission.specs.NextTimestamp.{Before, NextAfter};

use model::{CommitTimestamp, Limits, OptimisticPosition, Refusal};

// Where the transaction to be committed stands, if the final delivery of its key is accepted: the four tests in the paper's order. It writes nothing.
pub fn admit(
    records: &[u8],
    l: Limits,
    client: u32,
    sequence: u32,
) -> Result<OptimisticPosition, Refusal>
    requires sane { Sane l }
    requires holding { Holding l records.now }
    ensures { Admits l records.now client sequence result }
{
    if model::CLIENTS <= client {
        return Err(Refusal::UnknownClient);
    }
    if queue::is_spent(records, l, client, sequence) {
        return Err(Refusal::SpentKey);
    }
    let place = queue::locate(records, l, client, sequence);
    let position = place.position.ok_or(Refusal::NotPending)?;
    if model::LAST_TIMESTAMP <= cells::get(records, layout::TIMESTAMP) {
        return Err(Refusal::LastTimestamp);
    }
    Ok(position)
}

// The commit timestamp that the next commit takes.
pub fn next_timestamp(records: &[u8]) -> CommitTimestamp
    requires { Before records.now }
    ensures { NextAfter records.now result.0 }
{
    let next = cells::get(records, layout::TIMESTAMP) + 1;
    CommitTimestamp(next as u32)
}
