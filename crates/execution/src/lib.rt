// How far a run of a transaction's body has come, what its sets say beside a table (document 01, "A job's body"), and what stands beside the values of
// a lent one. The definitions and laws of runs are in specs/. Registers and both sets stand in lent arrays; four counts go by value.
#![tactic(auto)]

ghost use Rattle.std.specs.Prelude.{◌≡◌, true, ◌+◌, ◌*◌, ◌<◌, ◌≤◌, length};
ghost use Rattle.cells.specs.Cells.{cells};
ghost use Rattle.operation.specs.Body.{operations};
ghost use Rattle.execution.specs.Bounds.{inside};
ghost use Rattle.execution.specs.LentTable.{cell_bounds};
ghost use Rattle.execution.specs.Run.{Beside, table_of, object_count, is_none, due_at, over};
ghost use Rattle.execution.specs.RunShape.{every, sound};

// An entry of a read set or a write set: an object with its value.
#[derive(Clone, Copy, Default)]
pub struct Entry {
    pub object: usize,
    pub value: i64,
}

// How far a run has come: its program counter and outcome, and how many entries its read set and write set have. Each set stands at the front of an array.
#[derive(Clone, Copy)]
pub struct Counts {
    pub counter: usize,
    // a number, no enum: a fixed promise (`Run.outcome` of specs/Run, and the row's cell in docs/LAYOUT.md)
    pub outcome: usize,
    pub reads: usize,
    pub writes: usize,
}

// Where stamps and bounds of the objects stand in lent cells: object 0's stamp at cell `stamp`, its lower bound at cell `lower` and its upper one behind
// it, those of each next object `stride` cells on.
#[derive(Clone, Copy)]
pub struct ObjectsAt {
    pub stamp: usize,
    pub lower: usize,
    pub stride: usize,
}

// Whether a run of this body has ended: past the last operation, as most that have, or stopped early. Of the body its first byte alone is looked at.
pub fn is_finished(body: &[u8], counter: usize, outcome: usize) -> bool
    requires { 0 < length body.now }
    ensures { result ≡ is_none (due_at (operations body.now) counter outcome) }
{
    if operation::small(body[0]) <= counter {
        return true;
    }
    0 < outcome
}

// May an object whose bounds stand from this cell on, the lower one first, take the value? One at a bound is inside.
pub fn allows(area: &[u8], lower: usize, value: i64) -> bool
    requires { (lower + 2) * 8 ≤ length area.now }
    ensures { result ≡ inside (cell_bounds (cells area.now) lower) value }
{
    let low = cells::get_signed(area, lower);
    let high = cells::get_signed(area, lower + 1);
    (low <= value) & (value <= high)
}

// Lays a write set over a table, the last entry first, so that the first entry of an object counts.
pub fn overlay(table: &mut [i64], writes: &[Entry])
    requires { every (sound (object_count table.old)) writes.now ≡ true }
    ensures table { (b : Beside) → table_of table.new b ≡ over writes.now (table_of table.old b) }
    ensures size { object_count table.new ≡ object_count table.old }
{
    for e in writes.iter().rev() {
        table[e.object] = e.value;
    }
}
