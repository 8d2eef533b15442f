// The answers of the calls as text, each as one line of numbers in a lent buffer. What writes them stands in `console`.
#![tactic(auto)]

ghost use Rattle.std.specs.Prelude.{◌≡◌, ◌-◌, ◌<◌, ◌≤◌, ◌∷◌, pos, replicate, Ok};
ghost use Rattle.model.specs.Calls.{execute, final, open_reader, read, find, dry_run};
ghost use Rattle.model.specs.Answers.{reply, execution, delivery, reading, finding, preview};
ghost use Rattle.text.specs.Numerals.{Line};
ghost use Rattle.console_answers.specs.Output.{AnsweredBy};

use model::{Commit, Executed, Found, Preview, Version};
use text::numerals;

// A refusal's line has N numbers: its own, which is k, and zeros in place of the results.
fn put_refusal<const N: usize>(out: &mut [u8], k: u32) -> usize
    requires { (0 < N) × (N ≤ 132) }
    ensures { Line out.old (pos k ∷ replicate (N - 1) (pos 0)) out.new result }
{
    let mut line = [0; N];
    line[0] = i64::from(k);
    numerals::put_numbers(out, &line)
}

// Each answer is a list of numbers: 0 and the results, or a refusal's. A refusal is a `Refusal`, a `u32`, or what else has a number.
#[tactic(auto, unfolding(model::specs::Calls::numbers))]
pub fn put_reply<R: Into<u32>>(out: &mut [u8], r: Result<(), R>) -> usize
    ensures { AnsweredBy out.old (open_reader 0) (λ u. reply (Ok u)) R.converts r out.new result }
{
    match r {
        Ok(()) => numerals::put_numbers(out, &[0]),
        Err(refusal) => put_refusal::<1>(out, refusal.into()),
    }
}

// Work's: operations carried out, pending transactions finished.
#[tactic(auto, unfolding(model::specs::Calls::numbers))]
pub fn put_execution<R: Into<u32>>(out: &mut [u8], r: Result<Executed, R>) -> usize
    ensures { AnsweredBy out.old (execute 0) (λ x. execution (Ok x)) R.converts r out.new result }
{
    match r {
        Ok(e) => {
            let operations = i64::from(e.operations);
            let finished = i64::from(e.finished);
            numerals::put_numbers(out, &[0, operations, finished])
        }
        Err(refusal) => put_refusal::<3>(out, refusal.into()),
    }
}

// A final delivery's: outcome, kept (1) or run again (0), new stamp, number of objects stored, operations carried out.
#[tactic(auto, unfolding(model::specs::Calls::numbers))]
pub fn put_delivery<R: Into<u32>>(out: &mut [u8], r: Result<Commit, R>) -> usize
    ensures { AnsweredBy out.old (final 0 0) (λ x. delivery (Ok x)) R.converts r out.new result }
{
    match r {
        Ok(c) => {
            let outcome = i64::from(c.outcome);
            let kept = i64::from(c.validated);
            let stamp = i64::from(c.timestamp.0);
            let stored = i64::from(c.stored);
            let operations = i64::from(c.operations);
            numerals::put_numbers(out, &[0, outcome, kept, stamp, stored, operations])
        }
        Err(refusal) => put_refusal::<6>(out, refusal.into()),
    }
}

// Read's: value and stamp of the version that the reader sees.
#[tactic(auto, unfolding(model::specs::Calls::numbers))]
pub fn put_reading<R: Into<u32>>(out: &mut [u8], r: Result<Version, R>) -> usize
    ensures { AnsweredBy out.old (read 0 0) (λ x. reading (Ok x)) R.converts r out.new result }
{
    match r {
        Ok(v) => {
            let stamp = i64::from(v.timestamp.0);
            numerals::put_numbers(out, &[0, v.value, stamp])
        }
        Err(refusal) => put_refusal::<3>(out, refusal.into()), // neither value nor stamp
    }
}

// Find's: place in the optimistic order, length of the body.
#[tactic(auto, unfolding(model::specs::Calls::numbers))]
pub fn put_finding<R: Into<u32>>(out: &mut [u8], r: Result<Found, R>) -> usize
    ensures { AnsweredBy out.old (find 0 0) (λ x. finding (Ok x)) R.converts r out.new result }
{
    match r {
        Ok(f) => {
            let place = i64::from(f.position.0);
            let length = i64::from(f.length);
            numerals::put_numbers(out, &[0, place, length])
        }
        Err(refusal) => put_refusal::<3>(out, refusal.into()),
    }
}

// The numbers of a dry run's line: four, and the values behind them.
fn preview_line(outcome: i64, kept: i64, stamp: i64, values: &[i64; 128]) -> [i64; 132]
    ensures { result ≡ pos 0 ∷ outcome ∷ kept ∷ stamp ∷ values.now }
{
    let mut line = [0; 132];
    line[1] = outcome;
    line[2] = kept;
    line[3] = stamp;
    line[4..].copy_from_slice(values);
    line
}

// A dry run's: outcome, kept (1) or run again (0), the stamp that it would get, and the value that each object would hold.
#[tactic(auto, unfolding(model::specs::Calls::numbers, model::specs::Calls::preview_places))]
pub fn put_preview<R: Into<u32>>(out: &mut [u8], r: Result<Preview, R>) -> usize
    ensures { AnsweredBy out.old (dry_run 0 0) (λ x. preview (Ok x)) R.converts r out.new result }
{
    match r {
        Ok(p) => {
            let outcome = i64::from(p.outcome);
            let kept = i64::from(p.validated);
            let stamp = i64::from(p.timestamp.0);
            let line = preview_line(outcome, kept, stamp, &p.values);
            numerals::put_numbers(out, &line)
        }
        Err(refusal) => put_refusal::<132>(out, refusal.into()),
    }
}
