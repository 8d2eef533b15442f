// One replica of the standard kind ("cabinet unit") over the two areas that the caller lends: the public calls. Each makes the shape check and hands
// its answer on to the call at any limits. They are alike but for the call and stand one by one: a call is a promise of its own, and one function for all
// would be no plainer.
#![tactic(auto, unfolding(model::specs::Limits::standard))]

ghost use Rattle.std.specs.Prelude.{◌≡◌};
ghost use Rattle.layout.specs.Fit.{fit};
ghost use Rattle.model.specs.Calls.{by_values, opening, optimistic, open_reader, read as read-call, close_reader};
ghost use Rattle.model.specs.Calls.{find as find-call, execute as execute-call, final};
ghost use Rattle.model.specs.Limits.{standard};
ghost use Rattle.model.specs.Answers.{reply, execution, delivery, reading, finding};
ghost use Rattle.queue.specs.Shown.{Shown};
ghost use Rattle.dry_run.specs.Previews.{Previews};
ghost use Rattle.layout.specs.Contract.{Met};

use model::{Commit, Executed, Found, Limits, Preview, Refusal, Version};

// The limits of the standard kind ("cabinet unit").
pub const STANDARD: Limits = Limits {
    objects: 128,
    pending: 32,
    readers: 7,
    operations: 16,
};

// The shape check at the standard limits. It is called in this one place, so that the compiler makes one copy with the limits folded in.
fn standard_shape(records: &[u8], bodies: &[u8]) -> bool
    ensures { result ≡ fit standard (records.now, bodies.now) }
{
    shape::check(records, bodies, STANDARD)
}

// Open: n start values, a lower and an upper bound for each, and a start timestamp; both areas are filled, whatever is in them.
pub fn open(
    records: &mut [u8],
    bodies: &mut [u8],
    n: u32,
    values: &[i64],
    lower: &[i64],
    upper: &[i64],
    timestamp: u32,
) -> Result<(), Refusal>
    ensures { Met standard (opening (by_values n values.now lower.now upper.now timestamp))
        (records.old, bodies.old) (reply result) (records.new, bodies.new) }
{
    replica_calls::open(
        records, bodies, STANDARD, n, values, lower, upper, timestamp,
    )
}

// Early delivery: the transaction becomes the last of the pending ones.
pub fn deliver_optimistic(
    records: &mut [u8],
    bodies: &mut [u8],
    client: u32,
    sequence: u32,
    body: &[u8],
) -> Result<(), Refusal>
    ensures { Met standard (optimistic client sequence body.now) (records.old, bodies.old)
        (reply result) (records.new, bodies.new) }
{
    let shaped = standard_shape(records, bodies);
    replica_calls::deliver_optimistic(records, bodies, STANDARD, shaped, client, sequence, body)
}

// Open reader: it takes the current timestamp.
pub fn open_reader(records: &mut [u8], bodies: &[u8], reader: u32) -> Result<(), Refusal>
    ensures { Met standard (open_reader reader) (records.old, bodies.now)
        (reply result) (records.new, bodies.now) }
{
    let shaped = standard_shape(records, bodies);
    replica_calls::open_reader(records, bodies, STANDARD, shaped, reader)
}

// Read: the version of an object that the reader sees, value and stamp.
pub fn read(records: &[u8], bodies: &[u8], reader: u32, object: u32) -> Result<Version, Refusal>
    ensures { Met standard (read-call reader object) (records.now, bodies.now)
        (reading result) (records.now, bodies.now) }
{
    let shaped = standard_shape(records, bodies);
    replica_calls::read(records, bodies, STANDARD, shaped, reader, object)
}

// Close: the reader ends, and the versions that it alone held go.
pub fn close_reader(records: &mut [u8], bodies: &[u8], reader: u32) -> Result<(), Refusal>
    ensures { Met standard (close_reader reader) (records.old, bodies.now)
        (reply result) (records.new, bodies.now) }
{
    let shaped = standard_shape(records, bodies);
    replica_calls::close_reader(records, bodies, STANDARD, shaped, reader)
}

// Find: the optimistic position of a pending transaction and the length of its body.
pub fn find(records: &[u8], bodies: &[u8], client: u32, sequence: u32) -> Result<Found, Refusal>
    ensures { Met standard (find-call client sequence) (records.now, bodies.now)
        (finding result) (records.now, bodies.now) }
{
    let shaped = standard_shape(records, bodies);
    replica_calls::find(records, bodies, STANDARD, shaped, client, sequence)
}

// Show body: the very part of the lent body area that is a pending transaction's body; the empty part exactly when Find refuses.
pub fn show_body<'a>(records: &[u8], bodies: &'a [u8], client: u32, sequence: u32) -> &'a [u8]
    ensures { Shown standard records.now bodies.entry result client sequence }
{
    let shaped = standard_shape(records, bodies);
    replica_calls::show_body(records, bodies, STANDARD, shaped, client, sequence)
}

// Work: at most so many operations of the pending transactions, in optimistic order.
pub fn execute(records: &mut [u8], bodies: &[u8], count: u32) -> Result<Executed, Refusal>
    ensures { Met standard (execute-call count) (records.old, bodies.now)
        (execution result) (records.new, bodies.now) }
{
    let shaped = standard_shape(records, bodies);
    replica_calls::execute(records, bodies, STANDARD, shaped, count)
}

// Final delivery: the transaction commits, its early results kept where they are still valid.
pub fn deliver_final(
    records: &mut [u8],
    bodies: &mut [u8],
    client: u32,
    sequence: u32,
) -> Result<Commit, Refusal>
    ensures { Met standard (final client sequence) (records.old, bodies.old)
        (delivery result) (records.new, bodies.new) }
{
    let shaped = standard_shape(records, bodies);
    replica_calls::deliver_final(records, bodies, STANDARD, shaped, client, sequence)
}

// Dry run: what the final delivery of a pending key would come to now, and the value that each object would then hold.
pub fn dry_run(
    records: &[u8],
    bodies: &[u8],
    client: u32,
    sequence: u32,
) -> Result<Preview, Refusal>
    ensures { Previews standard client sequence (records.now, bodies.now) result }
{
    let shaped = standard_shape(records, bodies);
    replica_calls::dry_run(records, bodies, STANDARD, shaped, client, sequence)
}
