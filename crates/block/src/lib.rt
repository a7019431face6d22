// Lines, blank lines and blocks of a note.
#![tactic(auto)]

ghost use Rattle.std.specs.Prelude.{◌≡◌, ◌+◌, drop};
ghost use Rattle.scan.specs.Reading.{past};
ghost use Rattle.block.specs.Line.{padding, in_line};
ghost use Rattle.block.specs.Reading.{line_ends, blank_line, line_length, block_length};

use scan::Class;

// Space and tab.
struct Padding;

impl Class<u8> for Padding {
    ghost has = { λ _ b. padding b };

    fn holds(&self, b: u8) -> bool {
        (b == 32) | (b == 9)
    }
}

// Any byte but LF.
struct InLine;

impl Class<u8> for InLine {
    ghost has = { λ _ b. in_line b };

    fn holds(&self, b: u8) -> bool {
        b != 10
    }
}

// Past the spaces and tabs from `at` on.
pub fn past_padding(s: &[u8], at: usize) -> usize
    ensures { result ≡ past padding s.now at }
{
    scan::past(s, at, &Padding)
}

// Whether an end of line stands at `i`: an LF, or the end of `s`.
pub fn line_ends(s: &[u8], i: usize) -> bool
    ensures { result ≡ line_ends s.now i }
{
    (s.len() <= i) | (scan::peek(s, i) == 10)
}

// Whether the line that starts at `at` is blank.
#[tactic(auto, using(crate::proofs::Turns::blank_moved))]
pub fn blank_line(s: &[u8], at: usize) -> bool
    ensures { result ≡ blank_line (drop at s.now) }
{
    line_ends(s, past_padding(s, at))
}

// Past the line that starts at `at`, and its LF. An empty line is told by one byte; long stretches without an LF are passed by strides.
pub fn line_end(s: &[u8], at: usize) -> usize
    ensures { result ≡ at + line_length (drop at s.now) }
{
    if scan::peek(s, at) == 10 {
        return at + 1;
    }
    let near = scan::past_strides(s, at, &InLine);
    let end = scan::past(s, near, &InLine);
    if end < s.len() {
        return end + 1;
    }
    end
}

// Where the block ends whose first line starts at `at`.
#[tactic(auto, using(crate::proofs::Parts::line_less, crate::proofs::Parts::block_starts, crate::proofs::Parts::block_on, crate::proofs::Parts::block_stop, crate::proofs::Parts::block_done))]
pub fn block_end(s: &[u8], at: usize) -> usize
    ensures { result ≡ at + block_length (drop at s.now) }
{
    let mut i = line_end(s, at);
    while i < s.len() {
        if blank_line(s, i) {
            return i;
        }
        i = line_end(s, i);
    }
    i
}
