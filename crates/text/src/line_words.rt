// The words of a line: what stands between spaces and tabs.
ghost use Rattle.std.specs.Prelude.{◌≡◌, ◌+◌, ◌≤◌, length, drop};
ghost use Rattle.text.specs.LineWords.{is_blank, run, Next, Placed};

// A word is the bytes from index from up to, not including, index to.
#[derive(Drop)]
pub struct Word {
    pub from: usize,
    pub to: usize,
}

// Spaces and tabs stand between words.
#[tactic(auto, unfolding(crate::specs::LineWords::is_blank))]
fn is_blank(byte: u8) -> bool
    ensures { result ≡ is_blank byte }
{
    byte == b' ' || byte == b'\t'
}

// The index behind the blanks that begin at index at, or behind the other bytes that do.
fn run_end(line: &[u8], at: usize, blank: bool) -> usize
    requires { at ≤ length line.now }
    ensures { (result ≡ at + run blank (drop at line.now)) × (at ≤ result) × (result ≤ length line.now) }
{
    for i in at..line.len() {
        if is_blank(line[i]) != blank {
            return i;
        }
    }
    line.len()
}

// The first word from index at on; an empty one at the line's end where there is none.
pub fn next(line: &[u8], at: usize) -> Word
    ensures { Next line.now at result }
{
    let start = at.min(line.len());
    let from = run_end(line, start, true);
    let to = run_end(line, from, false);
    Word { from, to }
}

// Is there no word from index at on?
pub fn ended(line: &[u8], at: usize) -> bool {
    let w = next(line, at);
    w.from == w.to
}

// The place of a word among the words of a line, from 0 on; the number of words where it is none of them.
pub fn place(line: &[u8], word: &[u8]) -> Result<usize, usize>
    ensures { Placed line.now word.now result }
{
    let mut at = 0;
    for k in 0..line.len() {
        let w = next(line, at);
        if w.from == w.to {
            return Err(k);
        }
        if &line[w.from..w.to] == word {
            return Ok(k);
        }
        at = w.to;
    }
    Err(line.len())
}
