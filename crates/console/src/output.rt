// A line of output is made in a buffer, which holds the longest one, and written by one call where the writer takes it whole.
ghost use Rattle.std.specs.Prelude.{◌≡◌, ℕ, ◌<◌, ◌≤◌, [], ◌∷◌, ◌++◌, length, take, OnOk, OnErr};
ghost use Rattle.std.specs.Io.KnownBytes.{Appends};

use std::io;
use std::io::{ErrorKind, Write};
use text::buffer;
use text::buffer::Text;

// Writes all of text. An error is the writer's, or says that it takes no more: a start of the text is written, and not all of it.
// Nothing says that signals end, so the writes that they cut off are counted down from a number that no run uses up. No `for`: a write takes as much as
// it likes.
fn write_all<W: Write>(writer: &mut W, text: &[u8]) -> io::Result<()>
    ensures ok { OnOk result (Appends (W.contents writer.old) (W.contents writer.new) text.now) }
    ensures err { OnErr result ((sent : ℕ) × (sent < length text.now)
        × Appends (W.contents writer.old) (W.contents writer.new) (take sent text.now)) }
{
    let mut sent = 0;
    let mut again = u64::MAX;
    while sent < text.len() {
        match writer.write(&text[sent..]) {
            Ok(0) => return Err(io::Error::from(ErrorKind::WriteZero)),
            Ok(n) => sent += n,
            Err(e) => {
                if e.kind() != ErrorKind::Interrupted || again == 0 {
                    return Err(e);
                }
                again -= 1;
            }
        }
    }
    Ok(())
}

// Writes the first n bytes of out and a newline. An error where the writer takes no more: a start of the line is written, without its newline.
pub fn write_line<W: Write>(writer: &mut W, out: &mut [u8], n: usize) -> io::Result<()>
    ensures ok { n < length out.old → OnOk result
        (Appends (W.contents writer.old) (W.contents writer.new) (take n out.old ++ 10 ∷ [])) }
    ensures err { OnErr result ((sent : ℕ) × (sent ≤ n)
        × Appends (W.contents writer.old) (W.contents writer.new) (take sent out.old)) }
{
    let mut line = Text { out, end: n };
    line.put(b"\n");
    let end = line.end;
    let made = &*line.out;
    write_all(writer, buffer::front(made, end))
}
