// Opening parentheses that nothing closes, and link destinations that are given up at the first. However many destinations a text has that
// leave a parenthesis open, what they are searched in is read once.
#![tactic(auto)]

ghost use Rattle.std.specs.Prelude.{◌≡◌, false, ◌&&◌, ◌+◌, ◌≤◌, ◌<◌, ◌^◌, length, get_or, drop};
ghost use Rattle.target.specs.Reading.{raw_run, judged, destination_of};
ghost use Rattle.parens.specs.Unclosed.{slashed, parenthesis, closers_before, Marks, Prepared};

use target::{Part, Run};

// Whether the backslashes just before `i` are of odd number.
fn odd_before(s: &[u8], i: usize) -> bool
    requires { i ≤ length s.now }
    ensures { result ≡ slashed s.now i }
{
    let mut odd = false;
    for k in (0..i).rev() {
        if s[k] != 92 {
            return odd;
        }
        odd = !odd;
    }
    odd
}

// Whether the parenthesis `b` at `i` is escaped. No backslashes are counted before any other byte.
fn escaped(s: &[u8], i: usize, b: u8) -> bool
    requires { i ≤ length s.now }
    ensures { result ≡ (slashed s.now i && parenthesis b) }
{
    if (b == 40) | (b == 41) {
        return odd_before(s, i);
    }
    false
}

// Closing parentheses from `b` on that have nothing to close, where there are `c` after it.
#[tactic(auto, unfolding(crate::specs::Unclosed::closers_before))]
fn closers_before(c: usize, b: u8, odd: bool) -> usize
    requires { c + 1 < 2 ^ 64 }
    ensures { result ≡ closers_before c b odd }
{
    if (b < 33) | (b == 127) {
        return 0;
    }
    if !odd & (b == 41) {
        return c + 1;
    }
    if !odd & (b == 40) {
        return c.saturating_sub(1);
    }
    c
}

// Marks each opening parenthesis of `s` that nothing closes before the next byte that ends every destination.
fn open_marks(s: &[u8], marks: &mut [bool])
    requires { length s.now ≤ length marks.old }
    ensures { Marks s.now 0 marks.new }
{
    let mut c: usize = 0;
    for i in (0..s.len()).rev() {
        let b = s[i];
        let odd = escaped(s, i, b);
        marks[i] = !odd & (b == 40) & (c == 0);
        c = closers_before(c, b, odd);
    }
}

// Makes the table, if it is still to be made. The mark past the text's own tells that: the table of a text from a place on is then a part of
// the table from there on, where a flag of its own would have to be passed beside it.
fn prepare(s: &[u8], marks: &mut [bool])
    requires { Prepared s.now 0 marks.old }
    ensures marks { Marks s.now 0 marks.new }
    ensures prepared { Prepared s.now 0 marks.new }
{
    let n = s.len();
    if marks[n] {
        return;
    }
    open_marks(s, marks);
    marks[n] = true;
}

// The longest run that a destination without angle brackets can be, from `at` on, if all parentheses in it are closed. Where one is not
// and has a mark, the run is given up there.
fn run_to_mark(s: &[u8], at: usize, marks: &[bool]) -> Run
    requires at_value { slashed s.now at ≡ false }
    requires prepared { Prepared s.now 0 marks.now }
    ensures { judged at result ≡ judged at (raw_run (drop at s.now) at) }
{
    let n = s.len();
    if marks[n] {
        return target::raw_run(s, at, &marks[..n]);
    }
    target::raw_run(s, at, &[])
}

// The link destination that starts at `at`, before which no backslash stands. The table is made once a destination has left a parenthesis
// open: where there is none such, nothing is paid for it.
pub fn destination(s: &[u8], at: usize, marks: &mut [bool]) -> Option<Part>
    requires at_value { slashed s.now at ≡ false }
    requires prepared { Prepared s.now 0 marks.old }
    ensures value { result ≡ destination_of (drop at s.now) at }
    ensures prepared_2 { Prepared s.now 0 marks.new }
{
    if scan::peek(s, at) == 60 {
        return target::destination(s, at);
    }
    let run = run_to_mark(s, at, marks);
    if run.depth != 0 {
        prepare(s, marks);
        return None;
    }
    target::raw_part(at, run)
}
