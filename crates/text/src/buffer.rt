// Text is put into a lent buffer piece by piece. A piece that does not fit is left out whole.
ghost use Rattle.std.specs.Prelude.{◌≡◌, take};
ghost use Rattle.text.specs.Buffer.{Puts};

use std::fmt;

// What stands in a lent buffer before an index, from its start on.
#[derive(Drop)]
pub struct Text<'a> {
    pub out: &'a mut [u8],
    pub end: usize,
}

impl Text<'_> {
    // Text behind what was put before.
    pub fn put(&mut self, text: &[u8])
        ensures { Puts self.old text.now self.new }
    {
        let at = self.end;
        let out = &mut *self.out;
        if out.len() < at || out.len() - at < text.len() {
            return;
        }
        let end = at + text.len();
        out[at..end].copy_from_slice(text);
        self.end = end;
    }
}

// What prints itself is put by `write!`.
impl fmt::Write for Text<'_> {
    fn write_str(&mut self, s: &str) -> fmt::Result {
        self.put(s.as_bytes());
        Ok(())
    }
}

// The first n of a slice, or all where there are fewer.
pub fn front<T>(slice: &[T], n: usize) -> &[T]
    ensures { result.now ≡ take n slice.now }
{
    if n < slice.len() { &slice[..n] } else { slice }
}
