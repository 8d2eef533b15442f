// The pending transactions that leave at a commit, taken out of the two lent areas.
#![tactic(auto)]

ghost use Rattle.std.specs.Prelude.{◌≡◌, ◌+◌, ◌*◌, ◌<◌, ◌≤◌, length, MatchOption};
ghost use Rattle.layout.specs.Offsets.{Sane};
ghost use Rattle.final_requeue.specs.RunsMoved.{Moving, Moves, moved};
ghost use Rattle.final_requeue.specs.Leave.{Leaves, Queued, NextLeaving, Paired, Counted, Closes};
ghost use Rattle.final_requeue.specs.Clear.{Clearing, Clears, Left};

use model::Limits;

// Does the transaction of this key leave when this client's last number becomes this one? A client's keys lie one behind the other.
fn leaves(key: u64, client: u32, sequence: u32) -> bool
    ensures { Leaves key client sequence result }
{
    layout::key_cell(client, 0) <= key && key <= layout::key_cell(client, sequence)
}

// The position of the first of count pending transactions from position `from` on that leaves. A loop of its own, since one `for` with `close_up`, whose
// turns move runs, took an eighth longer (measured on `leave`, 31 pending, the first leaves: 248 ns for 220).
fn next_leaving(
    records: &[u8],
    l: Limits,
    from: usize,
    count: usize,
    client: u32,
    sequence: u32,
) -> Option<usize>
    requires sane { Sane l }
    requires queued { Queued l records.now count from }
    ensures { MatchOption result (NextLeaving l records.now client sequence count from count)
        (λ next. (next < count) × NextLeaving l records.now client sequence count from next) }
{
    for i in from..count {
        let key = cells::get(records, layout::row_at(l, i));
        if leaves(key, client, sequence) {
            return Some(i);
        }
    }
    None
}

// The n places of so many bytes that lie `step` places behind byte `at` go down to it. By one place is the usual way, and then the distance is a
// constant for the compiler, which makes it a memmove.
fn move_places(area: &mut [u8], at: usize, step: usize, n: usize, width: usize)
    requires { at + step * width + n * width ≤ length area.old }
    ensures { area.new ≡ moved at (at + step * width) (n * width) area.old }
{
    if step == 1 {
        cells::move_down(area, at, at + width, n * width);
    } else {
        cells::move_down(area, at, at + step * width, n * width);
    }
}

// The n pending transactions from position `from` on, their rows and their bodies, go down to position `to`.
fn move_run(records: &mut [u8], bodies: &mut [u8], l: Limits, to: usize, from: usize, n: usize)
    requires sane { Sane l }
    requires moving { Moving l records.old bodies.old to from n }
    ensures { Moves l to from n records.old bodies.old records.new bodies.new }
{
    if from <= to {
        return;
    }
    let step = from - to;
    let row = layout::row_at(l, to) * 8;
    move_places(records, row, step, n, layout::row_width(l) * 8);
    let body = layout::body_at(l, to);
    move_places(bodies, body, step, n, layout::body_width(l));
}

// Of so many pending transactions, those that stay go to the front, in order: each run between two that leave is moved as a whole, once, and the last run
// behind the loop. How many they are.
fn close_up(
    records: &mut [u8],
    bodies: &mut [u8],
    l: Limits,
    count: usize,
    client: u32,
    sequence: u32,
) -> usize
    requires sane { Sane l }
    requires counted { Counted l records.old bodies.old count }
    ensures { Closes l records.old bodies.old client sequence count records.new bodies.new result }
{
    let mut staying = 0;
    let mut from = 0;
    while let Some(next) = next_leaving(records, l, from, count, client, sequence) {
        let n = next - from;
        move_run(records, bodies, l, staying, from, n);
        staying += n;
        from = next + 1;
    }
    let last = count - from;
    move_run(records, bodies, l, staying, from, last);
    staying + last
}

// Of count pending transactions only the first so many stay: the places behind them become 0.
fn clear_from(records: &mut [u8], bodies: &mut [u8], l: Limits, staying: usize, count: usize)
    requires sane { Sane l }
    requires clearing { Clearing l records.old bodies.old staying count }
    ensures { Clears l staying count records.old bodies.old records.new bodies.new }
{
    cells::fill_zero(
        records,
        layout::row_at(l, staying) * 8,
        layout::row_at(l, count) * 8,
    );
    cells::put(records, layout::pending_at(l), staying as u64);
    cells::fill_zero(
        bodies,
        layout::body_at(l, staying),
        layout::body_at(l, count),
    );
}

// The client's pending transactions with a number not above this one leave.
pub fn leave(records: &mut [u8], bodies: &mut [u8], l: Limits, client: u32, sequence: u32)
    requires sane { Sane l }
    requires paired { Paired l records.old bodies.old }
    ensures { Left l client sequence records.old bodies.old records.new bodies.new }
{
    let count = cells::get(records, layout::pending_at(l)) as usize;
    let staying = close_up(records, bodies, l, count, client, sequence);
    clear_from(records, bodies, l, staying, count);
}
