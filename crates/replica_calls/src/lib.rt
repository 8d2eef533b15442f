// The calls at any limits, over the two areas that the caller lends: each is refused with 1 where the areas fail the shape check, and else works in
// place. A kind of replica (`replica`; the limits are its own) is a set of wrappers over these.
#![tactic(auto)]

ghost use Rattle.std.specs.Prelude.{◌≡◌, true, false, MatchResult};
ghost use Rattle.model.specs.Calls.{by_values, opening, optimistic, open_reader, read as read-call, close_reader};
ghost use Rattle.model.specs.Calls.{find as find-call, execute as execute-call, final};
ghost use Rattle.model.specs.Answers.{reply, execution, delivery, reading, finding};
ghost use Rattle.layout.specs.Fit.{fit};
ghost use Rattle.layout.specs.Contract.{Supported, Met};
ghost use Rattle.queue.specs.Shown.{Shown};
ghost use Rattle.dry_run.specs.Previews.{Previews};

use model::{Commit, Executed, Found, Limits, Preview, Refusal, Version};

// Open: its lengths, its counts and its start values are judged, in this order, before anything is written.
pub fn open(
    records: &mut [u8],
    bodies: &mut [u8],
    l: Limits,
    n: u32,
    values: &[i64],
    lower: &[i64],
    upper: &[i64],
    timestamp: u32,
) -> Result<(), Refusal>
    requires { Supported l }
    ensures { Met l (opening (by_values n values.now lower.now upper.now timestamp))
        (records.old, bodies.old) (reply result) (records.new, bodies.new) }
{
    if records.len() != layout::record_length(l) || bodies.len() != layout::bodies_length(l) {
        return Err(Refusal::Shape);
    }
    if !opening::counts_ok(l, n as usize, values, lower, upper) {
        return Err(Refusal::Miscounted);
    }
    if !opening::starts_inside(values, lower, upper) {
        return Err(Refusal::StartOutside);
    }
    opening::fill(records, bodies, l, values, lower, upper, timestamp);
    Ok(())
}

// The refusal of areas that fail the shape check: the first step of each call below, before anything is read.
fn require_shape(shaped: bool) -> Result<(), Refusal>
    ensures { MatchResult result (λ done. shaped ≡ true)
        (λ refusal. (refusal ≡ Refusal.Shape) × (shaped ≡ false)) }
{
    if shaped { Ok(()) } else { Err(Refusal::Shape) }
}

// Early delivery. `shaped` is the shape check's answer, here and below: the crate above makes the check, once, with its limits folded in.
pub fn deliver_optimistic(
    records: &mut [u8],
    bodies: &mut [u8],
    l: Limits,
    shaped: bool,
    client: u32,
    sequence: u32,
    body: &[u8],
) -> Result<(), Refusal>
    requires supported { Supported l }
    requires shaped_value { shaped ≡ fit l (records.old, bodies.old) }
    ensures { Met l (optimistic client sequence body.now) (records.old, bodies.old)
        (reply result) (records.new, bodies.new) }
{
    require_shape(shaped)?;
    optimistic_delivery::deliver_optimistic(records, bodies, l, client, sequence, body)
}

// Open reader.
pub fn open_reader(
    records: &mut [u8],
    bodies: &[u8],
    l: Limits,
    shaped: bool,
    reader: u32,
) -> Result<(), Refusal>
    requires supported { Supported l }
    requires shaped_value { shaped ≡ fit l (records.old, bodies.now) }
    ensures { Met l (open_reader reader) (records.old, bodies.now)
        (reply result) (records.new, bodies.now) }
{
    require_shape(shaped)?;
    snapshots::open_reader(records, l, reader)
}

// Read.
pub fn read(
    records: &[u8],
    bodies: &[u8],
    l: Limits,
    shaped: bool,
    reader: u32,
    object: u32,
) -> Result<Version, Refusal>
    requires supported { Supported l }
    requires shaped_value { shaped ≡ fit l (records.now, bodies.now) }
    ensures { Met l (read-call reader object) (records.now, bodies.now)
        (reading result) (records.now, bodies.now) }
{
    require_shape(shaped)?;
    snapshots::read(records, l, reader, object)
}

// Close.
pub fn close_reader(
    records: &mut [u8],
    bodies: &[u8],
    l: Limits,
    shaped: bool,
    reader: u32,
) -> Result<(), Refusal>
    requires supported { Supported l }
    requires shaped_value { shaped ≡ fit l (records.old, bodies.now) }
    ensures { Met l (close_reader reader) (records.old, bodies.now)
        (reply result) (records.new, bodies.now) }
{
    require_shape(shaped)?;
    snapshots::close_reader(records, l, reader)
}

// Find.
pub fn find(
    records: &[u8],
    bodies: &[u8],
    l: Limits,
    shaped: bool,
    client: u32,
    sequence: u32,
) -> Result<Found, Refusal>
    requires supported { Supported l }
    requires shaped_value { shaped ≡ fit l (records.now, bodies.now) }
    ensures { Met l (find-call client sequence) (records.now, bodies.now)
        (finding result) (records.now, bodies.now) }
{
    require_shape(shaped)?;
    queue::find(records, bodies, l, client, sequence)
}

// Show body: the empty part where the areas fail the check, as where Find refuses.
pub fn show_body<'a>(
    records: &[u8],
    bodies: &'a [u8],
    l: Limits,
    shaped: bool,
    client: u32,
    sequence: u32,
) -> &'a [u8]
    requires supported { Supported l }
    requires shaped_value { shaped ≡ fit l (records.now, bodies.now) }
    ensures { Shown l records.now bodies.entry result client sequence }
{
    if shaped {
        queue::show_body(records, bodies, l, client, sequence)
    } else {
        &bodies[..0]
    }
}

// Work.
pub fn execute(
    records: &mut [u8],
    bodies: &[u8],
    l: Limits,
    shaped: bool,
    count: u32,
) -> Result<Executed, Refusal>
    requires supported { Supported l }
    requires shaped_value { shaped ≡ fit l (records.old, bodies.now) }
    ensures { Met l (execute-call count) (records.old, bodies.now)
        (execution result) (records.new, bodies.now) }
{
    require_shape(shaped)?;
    speculative_execution::execute(records, bodies, l, count)
}

// Final delivery.
pub fn deliver_final(
    records: &mut [u8],
    bodies: &mut [u8],
    l: Limits,
    shaped: bool,
    client: u32,
    sequence: u32,
) -> Result<Commit, Refusal>
    requires supported { Supported l }
    requires shaped_value { shaped ≡ fit l (records.old, bodies.old) }
    ensures { Met l (final client sequence) (records.old, bodies.old)
        (delivery result) (records.new, bodies.new) }
{
    require_shape(shaped)?;
    final_delivery::deliver_final(records, bodies, l, client, sequence)
}

// The dry run.
pub fn dry_run(
    records: &[u8],
    bodies: &[u8],
    l: Limits,
    shaped: bool,
    client: u32,
    sequence: u32,
) -> Result<Preview, Refusal>
    requires supported { Supported l }
    requires shaped_value { shaped ≡ fit l (records.now, bodies.now) }
    ensures { Previews l client sequence (records.now, bodies.now) result }
{
    require_shape(shaped)?; // with 1, as Final delivery, whose answer it previews
    dry_run::dry_run(records, bodies, l, client, sequence)
}
