// The choice of a final delivery, before anything is written: the early results of the transaction, or its new execution.
#![tactic(auto)]

ghost use Rattle.std.specs.Prelude.{◌≡◌, ◌<◌, length};
ghost use Rattle.cells.specs.Cells.{cells};
ghost use Rattle.execution.specs.Arrays.{Room};
ghost use Rattle.layout.specs.Offsets.{Sane};
ghost use Rattle.final_walk.specs.Places.{Reaching};
ghost use Rattle.final_walk.specs.Recorded.{Lying, reads_from};
ghost use Rattle.final_decision.specs.Decide.{Local, decision_of, Deciding, Decides, CountsAt, valid_at, Rerunning, Reruns};

use execution::{Counts, Entry};
use execution_interpreter::Executed;
use model::{Limits, OptimisticPosition};

// What a final delivery of a transaction comes to: its outcome, whether its early results are kept, how many objects are stored, and its rework.
#[derive(Drop)]
pub struct Decision {
    pub outcome: usize,
    pub validated: bool,
    pub stored: usize,
    pub operations: usize,
}

// A run as what a delivery comes to: its outcome, as many objects as its write set names, and the operations carried out for it.
fn decided(t: Counts, validated: bool, operations: usize) -> Decision
    ensures { result ≡ decision_of t validated operations }
{
    Decision {
        outcome: t.outcome,
        validated,
        stored: t.writes,
        operations,
    }
}

// How far the run in the row at this cell has come. Apart from `rows::load_row`, which is lent a row and loads all of it: as one they would be no plainer.
fn counts_at(records: &[u8], at: usize) -> Counts
    requires { Lying records.now at }
    ensures { CountsAt (cells records.now) at result }
{
    let counter = cells::get(records, at + layout::ROW_COUNTER) as usize;
    let outcome = cells::get(records, at + layout::ROW_OUTCOME) as usize;
    let reads = cells::get(records, at + layout::ROW_READS) as usize;
    let total = cells::get(records, at + layout::ROW_ENTRIES) as usize;
    Counts {
        counter,
        outcome,
        reads,
        writes: total - reads,
    }
}

// Whether the run of this body in the row at this cell is finished and every value that it read from outside itself is the committed one.
fn is_validated(records: &[u8], at: usize, body: &[u8], t: Counts, places: &[usize; 128]) -> bool
    requires lying { Lying records.now at × (0 < length body.now) }
    requires reaching { Reaching records.now places.now (reads_from (cells records.now) at) }
    ensures { result ≡ valid_at records.now places.now body.now t at }
{
    execution::is_finished(body, t.counter, t.outcome)
        && final_walk::reads_match(records, at, places)
}

// The whole run of this body on the committed state, and how many operations it carried out: its values are gathered for it, by the lookup that
// readers use; stamps and bounds are lent where they stand. Its write set comes at the front of an array.
fn run_again(records: &[u8], l: Limits, body: &[u8], writes: &mut [Entry; 16]) -> Executed
    requires sane { Sane l × Local l }
    requires rerunning { Rerunning l records.now body.now × Room writes.old }
    ensures { Reruns l records.now body.now result writes.new }
{
    let mut table: [i64; 128] = [0; 128];
    let n = committed_table::committed_values(records, l, &mut table);
    let objects = committed_table::objects_place(l);
    let mut reads = [Entry {
        object: 0,
        value: 0,
    }; 16];
    execution_interpreter::run(&table[..n], records, objects, body, &mut reads, writes)
}

// The early results of the pending transaction at this position, if they are validated on the committed state, whose places are lent, else its whole
// run on it. Of a row that is kept only the writes are loaded.
pub fn decide(
    records: &[u8],
    bodies: &[u8],
    l: Limits,
    position: OptimisticPosition,
    places: &[usize; 128],
    writes: &mut [Entry; 16],
) -> Decision
    requires sane { Sane l × Local l }
    requires deciding { Deciding l records.now bodies.now position.0 places.now × Room writes.old }
    ensures { Decides l records.now bodies.now position.0 places.now result writes.new }
{
    let i = position.0 as usize;
    let first = layout::body_at(l, i);
    let end = first + operation::body_length(bodies[first] as usize);
    let body = &bodies[first..end];
    let at = layout::row_at(l, i);
    let t = counts_at(records, at);
    if is_validated(records, at, body, t, places) {
        let from = at * 8;
        rows::load_entries(&records[from..], t.reads, &mut writes[..t.writes]);
        return decided(t, true, 0);
    }
    let again = run_again(records, l, body, writes);
    decided(again.counts, false, again.used)
}
