// Input, by blocks.
ghost use Rattle.std.specs.Prelude.{◌≡◌, ℕ, ◌-◌, ◌<◌, List, ◌++◌, true, length, take, IfOk, OnErr};
ghost use Rattle.std.specs.Io.KnownBytes.{Keeps, Consumes, IsAtEnd};
ghost use Rattle.console.specs.Input.{Within, unused};

use std::io;
use std::io::Read;

// The bytes of the buffer from index from up to, not including, index end are read and not used yet.
#[derive(Clone, Copy)]
pub struct Input {
    pub from: usize,
    pub end: usize,
    pub ended: bool,
}

impl Input {
    // The bytes before index at are used.
    pub fn behind(self, at: usize) -> Input
        ensures { (result.from ≡ at) × (result.end ≡ self.end) }
    {
        Input { from: at, ..self }
    }
}

// Moves the unused bytes to the buffer's start and reads once behind them. Nothing read: the input has ended.
// An error is the read's: the unused bytes are moved, and the reader has given none.
pub fn more<R: Read>(reader: &mut R, buffer: &mut [u8], input: Input) -> io::Result<Input>
    requires { Within input (length buffer.old) }
    ensures within { IfOk result (λ i. Within i (length buffer.new)) }
    ensures bytes { IfOk result (λ i. (read : List ℕ) × Consumes (R.remaining reader.old) (R.remaining reader.new) read
        × (unused i buffer.new ≡ unused input buffer.old ++ read)) }
    ensures ended { IfOk result (λ i. i.ended ≡ true → input.end - input.from < length buffer.old
        → IsAtEnd (R.remaining reader.new)) }
    ensures nothing_read { IfOk result (λ i. i.end ≡ input.end - input.from → i.ended ≡ true) }
    ensures err_unused { OnErr result (take (input.end - input.from) buffer.new ≡ unused input buffer.old) }
    ensures err_reader { OnErr result (Keeps (R.remaining reader.old) (R.remaining reader.new)) }
{
    let unread = input.end - input.from;
    buffer.copy_within(input.from..input.end, 0);
    let n = reader.read(&mut buffer[unread..])?;
    Ok(Input {
        from: 0,
        end: unread + n,
        ended: n == 0,
    })
}
