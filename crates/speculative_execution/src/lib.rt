// Work: operations of the first unfinished pending transaction, then of the next, in place on a replica's two areas.
#![tactic(auto)]

ghost use Rattle.std.specs.Prelude.{◌≡◌, true};
ghost use Rattle.model.specs.Calls as calls;
ghost use Rattle.model.specs.Answers.{execution};
ghost use Rattle.layout.specs.Layout.{parse};
ghost use Rattle.layout.specs.Fit.{fit};
ghost use Rattle.layout.specs.Contract.{Supported, Met};
ghost use Rattle.speculative_execution.specs.Passing.{Worked};
ghost use Rattle.speculative_execution.specs.LentAreas.{Begun};

use model::{Executed, Limits, Refusal};

// The pending transactions in optimistic order, until one stays unfinished. Those passed are finished and their writes are over the table, which is
// the committed one at first; `left` of the budget is left.
fn execute_pending(
    records: &mut [u8],
    bodies: &[u8],
    l: Limits,
    table: &mut [i64],
    budget: usize,
) -> Executed
    requires { Begun l records.old bodies.now table.old budget }
    ensures { Worked l (parse l (records.old, bodies.now)) budget records.new result.operations result.finished }
{
    let pending = cells::get(records, layout::pending_at(l)) as usize;
    let objects = committed_table::objects_place(l);
    let mut left = budget;
    for i in 0..pending {
        let row = layout::row_at(l, i) * 8;
        let next = layout::row_at(l, i + 1) * 8;
        let at = layout::body_at(l, i);
        let end = at + operation::body_length(operation::small(bodies[at]));
        let a = speculative_turn::advance(
            records,
            objects,
            row,
            next,
            &bodies[at..end],
            table,
            left,
        );
        left -= a.used;
        if !a.finished {
            return Executed {
                operations: (budget - left) as u32,
                finished: i as u32,
            };
        }
    }
    let operations = (budget - left) as u32;
    Executed {
        operations,
        finished: pending as u32,
    }
}

// Work: at most `count` operations of the pending transactions in optimistic order, each on the committed state with the writes of those before it.
pub fn execute(
    records: &mut [u8],
    bodies: &[u8],
    l: Limits,
    count: u32,
) -> Result<Executed, Refusal>
    requires supported { Supported l }
    requires bodies_value { fit l (records.old, bodies.now) ≡ true }
    ensures { Met l (calls.execute count) (records.old, bodies.now)
        (execution result) (records.new, bodies.now) }
{
    if model::MOST_WORK < count {
        return Err(Refusal::TooMuchWork);
    }
    let budget = count as usize;
    let mut table: [i64; 128] = [0; 128];
    let n = committed_table::committed_values(records, l, &mut table);
    Ok(execute_pending(records, bodies, l, &mut table[..n], budget))
}
