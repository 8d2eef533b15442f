// One pending transaction's turn of work, on its row: a finished one lays its writes over the table of those behind it, any other's run is resumed.
// The row and what stands beside the table's values are in one area: the row is loaded, run in local arrays while the area is only read, and stored.
#![tactic(auto)]

ghost use Rattle.std.specs.Prelude.{◌≡◌, false, ◌<◌, length};
ghost use Rattle.operation.specs.Body.{operations};
ghost use Rattle.execution.specs.Run.{ended};
ghost use Rattle.rows.specs.RowRun.{Readable};
ghost use Rattle.speculative_turn.specs.Advance.{before};
ghost use Rattle.speculative_turn.specs.AreaRow.{area_row, ReadyAt, LeavesAt};

use execution::{Entry, ObjectsAt};

// What one transaction's turn comes to.
#[derive(Clone, Copy)]
pub struct Advanced {
    // operations carried out
    pub used: usize,
    pub finished: bool,
}

// An unfinished transaction: its row is loaded, at most `budget` of its operations are carried out, and it is written back. If it is finished then,
// its writes go over the table.
fn resume(
    records: &mut [u8],
    objects: ObjectsAt,
    row: usize,
    next: usize,
    body: &[u8],
    table: &mut [i64],
    budget: usize,
) -> Advanced
    requires ready_at { ReadyAt records.old objects row next body.now table.old budget }
    requires next_value { ended (operations body.now) (before (area_row records.old row next)) ≡ false }
    ensures { LeavesAt records.old objects row next body.now table.old budget
        result records.new table.new }
{
    let mut registers: [i64; 4] = [0; 4];
    let mut reads = [Entry::default(); 16];
    let mut writes = [Entry::default(); 16];
    let from = rows::load_row(&records[row..next], &mut registers, &mut reads, &mut writes);
    let e = execution_interpreter::execute(
        table,
        records,
        objects,
        body,
        &mut registers,
        &mut reads,
        &mut writes,
        from,
        budget,
    );
    let t = e.counts;
    rows::store_row(&mut records[row..next], t, &registers, &reads, &writes);
    let finished = execution::is_finished(body, t.counter, t.outcome);
    if finished {
        execution::overlay(table, &writes[..t.writes]);
    }
    Advanced {
        used: e.used,
        finished,
    }
}

// Whether the run on record in this row is finished. Apart from `shape::is_finished`, whose bytes may be any: the clauses differ.
fn is_finished(row: &[u8], body: &[u8]) -> bool
    requires { Readable row.now × (0 < length body.now) }
    ensures { result ≡ ended (operations body.now) (before row.now) }
{
    let counter = cells::get(row, layout::ROW_COUNTER) as usize;
    let outcome = cells::get(row, layout::ROW_OUTCOME) as usize;
    execution::is_finished(body, counter, outcome)
}

// One transaction's turn, its row being the record area's bytes from `row` to `next`. A finished one, as most are, is not loaded: its writes go over
// the table as they stand in its row.
pub fn advance(
    records: &mut [u8],
    objects: ObjectsAt,
    row: usize,
    next: usize,
    body: &[u8],
    table: &mut [i64],
    budget: usize,
) -> Advanced
    requires { ReadyAt records.old objects row next body.now table.old budget }
    ensures { LeavesAt records.old objects row next body.now table.old budget
        result records.new table.new }
{
    if is_finished(&records[row..next], body) {
        rows::overlay_writes(&records[row..next], table);
        return Advanced {
            used: 0,
            finished: true,
        };
    }
    resume(records, objects, row, next, body, table, budget)
}
