// Thin forms for the cabinet's host, over records that it lends: the counters of a replica, and the pending transactions as a list.
#![tactic(auto)]

ghost use Rattle.std.specs.Prelude.{◌≡◌, MatchResult};
ghost use Rattle.model.specs.Answers.{number};
ghost use Rattle.host.specs.Counting.{timestamp_after, number_of_delivery, delivered, worked};
ghost use Rattle.host.specs.HostRestart.{unbegun, restarted_behind};

use model::{LAST_TIMESTAMP, Refusal};

#[repr(C)]
#[derive(Drop)]
pub struct Counters {
    // the commit timestamp ("stamp")
    pub timestamp: u32,
    // pending transactions, and how many of these are finished
    pub pending: u32,
    pub finished: u32,
}

// The commit timestamp after one delivery; the highest has none after it.
#[tactic(auto, unfolding(model::specs::Calls::last_timestamp))]
fn next_timestamp(timestamp: u32) -> Result<u32, Refusal>
    ensures { MatchResult result (λ t. (number_of_delivery timestamp ≡ 0) × (t ≡ timestamp_after timestamp))
        (λ r. (number_of_delivery timestamp ≡ number r) × (timestamp ≡ timestamp_after timestamp)) }
{
    if u64::from(timestamp) == LAST_TIMESTAMP {
        return Err(Refusal::LastTimestamp);
    }
    Ok(timestamp + 1)
}

// One delivery counted: the timestamp up by 1, the other counts as before; at the highest timestamp 9 and no change.
#[unsafe(no_mangle)]
pub extern "C" fn jobstore_count_delivery(c: &mut Counters) -> u32
    ensures { (result ≡ number_of_delivery c.old.timestamp) × (c.new ≡ delivered c.old) }
{
    match next_timestamp(c.timestamp) {
        Ok(timestamp) => {
            c.timestamp = timestamp;
            0
        }
        Err(refusal) => u32::from(refusal),
    }
}

// Work counted: so many pending transactions are now finished, as work answered. More than are pending changes nothing.
#[unsafe(no_mangle)]
pub extern "C" fn jobstore_count_work(c: &mut Counters, finished: u32)
    ensures { c.new ≡ worked c.old finished }
{
    if finished <= c.pending {
        c.finished = finished;
    }
}

// A pending transaction ("job record"): a row of the record area, line by line.
#[repr(C)]
#[derive(Drop)]
pub struct PendingTransaction {
    pub client: u32,
    pub sequence: u32,
    // the program counter ("place")
    pub counter: u32,
    pub outcome: u32,
    pub registers: [i64; 4],
    // the number of reads, and that of reads and writes: the reads stand first, right behind them the writes
    pub reads: u32,
    pub entries: u32,
    // two arrays, and numbers beside them: the C interface
    pub objects: [u8; 16],
    pub values: [i64; 16],
}

// A transaction that is not begun: its key and zeros.
#[tactic(auto, unfolding(operation::specs::Body::register_count))]
fn not_begun(client: u32, sequence: u32) -> PendingTransaction
    ensures { result ≡ unbegun client sequence }
{
    PendingTransaction {
        client,
        sequence,
        counter: 0,
        outcome: 0,
        registers: [0; 4],
        reads: 0,
        entries: 0,
        objects: [0; 16],
        values: [0; 16],
    }
}

// From a place in the list on, each goes back to its start. A place past the last changes nothing.
#[unsafe(no_mangle)]
pub extern "C" fn jobstore_restart_from(rows: &mut [PendingTransaction], place: usize)
    ensures { rows.new ≡ restarted_behind place rows.old }
{
    for i in place..rows.len() {
        rows[i] = not_begun(rows[i].client, rows[i].sequence);
    }
}
