// Exports for C and Rust (include/jobstore.h): nothing but wrappers over `replica`, named by the papers' words.
// A slice is a pointer and a length. A result is a number, or a struct whose first number is 0 or the refusal.
#![tactic(auto, using(crate::specs::Exported::exported, ffi_numbers::specs::AnswerNumbers::numbered_told), unfolding(model::specs::Limits::standard))]

ghost use Rattle.std.specs.Prelude.{◌≡◌};
ghost use Rattle.model.specs.Calls.{by_values, opening, optimistic, execute, final, open_reader, read, close_reader, find, dry_run};
ghost use Rattle.model.specs.Limits.{standard};
ghost use Rattle.model.specs.Answers.{finding};
ghost use Rattle.layout.specs.Offsets.{record_length, bodies_length};
ghost use Rattle.queue.specs.Shown.{part};
ghost use Rattle.ffi_numbers.specs.AnswerNumbers.{lone, executed, committed, valued, found, previewed};
ghost use Rattle.ffi.specs.Exported.{Exported};
ghost use Rattle.ffi.specs.ExportedPart.{Low, ShownPart};

use ffi_numbers::{Committed, Executed, Found, Previewed, Valued};
use model::Refusal;

// Show body: which bytes of the body area.
#[repr(C)]
#[derive(Drop)]
pub struct Part {
    pub start: u32,
    pub length: u32,
}

// The part of the body area where the found body stands. A function, since a From can require nothing of what it converts.
fn finding_part(answer: Result<model::Found, Refusal>) -> Part
    requires { Low standard answer }
    ensures { (result.start, result.length) ≡ part standard (finding answer) }
{
    match answer {
        Ok(found) => Part {
            start: layout::body_at(replica::STANDARD, found.position.0 as usize) as u32,
            length: found.length,
        },
        Err(_) => Part {
            start: 0,
            length: 0,
        },
    }
}

// The length of the record area in bytes.
#[unsafe(no_mangle)]
pub extern "C" fn jobstore_record_length() -> u32
    ensures { result ≡ record_length standard }
{
    layout::record_length(replica::STANDARD) as u32
}

// The length of the body area in bytes.
#[unsafe(no_mangle)]
pub extern "C" fn jobstore_bodies_length() -> u32
    ensures { result ≡ bodies_length standard }
{
    layout::bodies_length(replica::STANDARD) as u32
}

// Open: n start values, a lower and an upper bound for each, and a start stamp.
#[unsafe(no_mangle)]
pub extern "C" fn jobstore_open(
    records: &mut [u8],
    bodies: &mut [u8],
    n: u32,
    values: &[i64],
    lower: &[i64],
    upper: &[i64],
    stamp: u32,
) -> u32
    ensures { Exported (opening (by_values n values.now lower.now upper.now stamp))
        (records.old, bodies.old) (lone result) (records.new, bodies.new) }
{
    ffi_numbers::reply_number(replica::open(records, bodies, n, values, lower, upper, stamp))
}

// Early delivery of a key and its body.
#[unsafe(no_mangle)]
pub extern "C" fn jobstore_early(
    records: &mut [u8],
    bodies: &mut [u8],
    client: u32,
    sequence: u32,
    body: &[u8],
) -> u32
    ensures { Exported (optimistic client sequence body.now) (records.old, bodies.old)
        (lone result) (records.new, bodies.new) }
{
    ffi_numbers::reply_number(replica::deliver_optimistic(records, bodies, client, sequence, body))
}

// Work of at most count operations.
#[unsafe(no_mangle)]
pub extern "C" fn jobstore_work(records: &mut [u8], bodies: &[u8], count: u32) -> Executed
    ensures { Exported (execute count) (records.old, bodies.now) (executed result) (records.new, bodies.now) }
{
    Executed::from(replica::execute(records, bodies, count))
}

// Final delivery of a key.
#[unsafe(no_mangle)]
pub extern "C" fn jobstore_final(
    records: &mut [u8],
    bodies: &mut [u8],
    client: u32,
    sequence: u32,
) -> Committed
    ensures { Exported (final client sequence) (records.old, bodies.old) (committed result) (records.new, bodies.new) }
{
    Committed::from(replica::deliver_final(records, bodies, client, sequence))
}

// Open reader.
#[unsafe(no_mangle)]
pub extern "C" fn jobstore_open_reader(records: &mut [u8], bodies: &[u8], reader: u32) -> u32
    ensures { Exported (open_reader reader) (records.old, bodies.now) (lone result) (records.new, bodies.now) }
{
    ffi_numbers::reply_number(replica::open_reader(records, bodies, reader))
}

// Read: an object as of the reader's stamp.
#[unsafe(no_mangle)]
pub extern "C" fn jobstore_read(records: &[u8], bodies: &[u8], reader: u32, object: u32) -> Valued
    ensures { Exported (read reader object) (records.now, bodies.now) (valued result) (records.now, bodies.now) }
{
    Valued::from(replica::read(records, bodies, reader, object))
}

// Close a reader.
#[unsafe(no_mangle)]
pub extern "C" fn jobstore_close_reader(records: &mut [u8], bodies: &[u8], reader: u32) -> u32
    ensures { Exported (close_reader reader) (records.old, bodies.now) (lone result) (records.new, bodies.now) }
{
    ffi_numbers::reply_number(replica::close_reader(records, bodies, reader))
}

// Find a pending key.
#[unsafe(no_mangle)]
pub extern "C" fn jobstore_find(records: &[u8], bodies: &[u8], client: u32, sequence: u32) -> Found
    ensures { Exported (find client sequence) (records.now, bodies.now) (found result) (records.now, bodies.now) }
{
    Found::from(replica::find(records, bodies, client, sequence))
}

// The part is named by its start, since C has no slices: Find says where it is, and one check of the areas is enough.
#[unsafe(no_mangle)]
pub extern "C" fn jobstore_show_body(
    records: &[u8],
    bodies: &[u8],
    client: u32,
    sequence: u32,
) -> Part
    ensures { ShownPart standard (records.now, bodies.now) client sequence result.start result.length }
{
    finding_part(replica::find(records, bodies, client, sequence))
}

// Dry run of a pending key: what its final delivery would come to now.
#[unsafe(no_mangle)]
pub extern "C" fn jobstore_dry_run(
    records: &[u8],
    bodies: &[u8],
    client: u32,
    sequence: u32,
) -> Previewed
    ensures { Exported (dry_run client sequence) (records.now, bodies.now)
        (previewed result) (records.now, bodies.now) }
{
    Previewed::from(replica::dry_run(records, bodies, client, sequence))
}
