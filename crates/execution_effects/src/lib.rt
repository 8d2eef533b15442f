// What an operation does to a run: registers and program counter; a load by write set, read set and table, recorded in the read set; a store into
// the write set, where the object's bounds allow the value.
#![tactic(auto)]

ghost use Rattle.std.specs.Prelude.{◌≡◌, List, ℕ, ◌+◌, ◌*◌, ◌≤◌, ◌<◌, ℤ, length, set};
ghost use Rattle.cells.specs.Cells.{cells};
ghost use Rattle.execution.specs.Run.{Table, Beside, table_of, object_count, apply, get as get-move, put as put-move, register};
ghost use Rattle.execution.specs.LentTable.{bounds_cell, lent_beside};
ghost use Rattle.execution.specs.Arrays.{capacity, run_of_arrays, Room, Bounded, Within};
ghost use Rattle.execution_effects.specs.Effects.{Ready, advanced, stopped, settled, Found};

use execution::{Counts, Entry, ObjectsAt};

// Past one operation and `passed` more.
pub fn advance(c: Counts, passed: usize) -> Counts
    requires { (c.counter < capacity) × (passed ≤ capacity) }
    ensures { result ≡ advanced passed c }
{
    Counts {
        counter: c.counter + passed + 1,
        outcome: 0,
        ..c
    }
}

// An early stop with this outcome: a number, as `Counts` has it, and since docs/CLAIMS.md names the function, its parameter may not become narrower.
pub fn stop(c: Counts, outcome: usize) -> Counts
    requires { c.counter < capacity }
    ensures { result ≡ stopped outcome c }
{
    Counts {
        counter: c.counter + 1, // this operation counts as carried out
        outcome,
        writes: 0, // nothing is stored
        ..c
    }
}

// A register takes a value, and the run goes on behind this operation.
pub fn assign(registers: &mut [i64; 4], c: Counts, r: usize, v: i64) -> Counts
    requires { (c.counter < capacity) × (r < 4) }
    ensures counts { result ≡ advanced 0 c }
    ensures registers { registers.new ≡ set registers.old r v }
{
    registers[r] = v;
    advance(c, 0)
}

// A checked sum or difference goes into its register, or the run stops.
pub fn settle(registers: &mut [i64; 4], c: Counts, r: usize, x: Option<i64>) -> Counts
    requires { Ready c r }
    ensures run { (T : Table) (reads writes : List Entry) → run_of_arrays result registers.new reads writes
        ≡ apply T (settled registers.old r x) (run_of_arrays c registers.old reads writes) }
    ensures bounded { Bounded result }
    ensures within { Within result }
{
    match x {
        Some(v) => assign(registers, c, r, v),
        None => stop(c, 2),
    }
}

// The first index of an object in a set.
fn find(set: &[Entry], object: usize) -> Option<usize>
    ensures { Found set.now object result }
{
    set.iter().position(|e| e.object == object)
}

// The own latest store of the object, else the value read before, else the table's, which is recorded.
pub fn load(
    table: &[i64],
    registers: &mut [i64; 4],
    reads: &mut [Entry; 16],
    writes: &[Entry; 16],
    c: Counts,
    r: usize,
    o: usize,
) -> Counts
    requires { Ready c r × (o < object_count table.now) × Room reads.old }
    ensures run { (b : Beside) → run_of_arrays result registers.new reads.new writes.now
        ≡ apply (table_of table.now b) (get-move r o)
        (run_of_arrays c registers.old reads.old writes.now) }
    ensures bounded { Bounded result }
    ensures within { Within result }
    ensures room { Room reads.new }
{
    if let Some(j) = find(&writes[..c.writes], o) {
        return assign(registers, c, r, writes[j].value);
    }
    let n = c.reads;
    if let Some(k) = find(&reads[..n], o) {
        return assign(registers, c, r, reads[k].value);
    }
    let value = table[o];
    reads[n] = Entry { object: o, value };
    registers[r] = value;
    Counts {
        reads: n + 1,
        ..advance(c, 0)
    }
}

// A value outside the object's bounds stops the run. An object stored again keeps its place and takes the new value.
pub fn store(
    area: &[u8],
    objects: ObjectsAt,
    registers: &[i64; 4],
    writes: &mut [Entry; 16],
    c: Counts,
    r: usize,
    o: usize,
) -> Counts
    requires { Ready c r × ((bounds_cell objects o + 2) * 8 ≤ length area.now) × Room writes.old }
    ensures run { (n : ℕ) (vs : List ℤ) (reads : List Entry) → o < n
        → run_of_arrays result registers.now reads writes.new
        ≡ apply (table_of vs (lent_beside n objects (cells area.now))) (put-move o (register registers.now r))
        (run_of_arrays c registers.now reads writes.old) }
    ensures bounded { Bounded result }
    ensures within { Within result }
    ensures room { Room writes.new }
{
    let value = registers[r];
    let at = objects.lower + o * objects.stride;
    if !execution::allows(area, at, value) {
        return stop(c, 3);
    }
    let entry = Entry { object: o, value };
    let n = c.writes;
    if let Some(j) = find(&writes[..n], o) {
        writes[j] = entry;
        return advance(c, 0);
    }
    writes[n] = entry;
    Counts {
        writes: n + 1,
        ..advance(c, 0)
    }
}
