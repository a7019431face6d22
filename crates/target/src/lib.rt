// Link destination, link title, and the space that separates them.
#![tactic(auto)]

ghost use Rattle.std.specs.Prelude.{◌≡◌, false, drop, get_or, ◌+◌, ◌<◌, ◌^◌};
ghost use Rattle.target.specs.Reading.{space_run, halts, depth_after, run_to, judged, enclosed_of, destination_of, closer, title_of};

// Start and end of the content, without delimiters, and the place after the whole.
#[derive(Clone, Copy)]
pub struct Part {
    pub start: usize,
    pub end: usize,
    pub next: usize,
}

// Where a run ends, and how many parentheses it leaves open.
#[derive(Clone, Copy)]
pub struct Run {
    pub end: usize,
    pub depth: usize,
}

// The place after spaces, tabs and at most one LF.
pub fn space_end(s: &[u8], at: usize) -> usize
    ensures { result ≡ at + space_run (drop at s.now) }
{
    let mut line = false;
    for i in at..s.len() {
        let b = s[i];
        if !scan::is_blank(b) | line & (b == 10) {
            return i;
        }
        line = line | (b == 10);
    }
    at.max(s.len())
}

// How many parentheses are open after `b`, a byte of the run.
#[tactic(auto, using(crate::proofs::Turns::open_before), unfolding(crate::specs::Reading::depth_after))]
pub fn depth_after(depth: usize, b: u8, inside: bool) -> usize
    requires { (halts depth b inside ≡ false) × (depth + 1 < 2 ^ 64) }
    ensures { result ≡ depth_after depth b inside }
{
    if !inside & (b == 41) {
        return depth - 1;
    }
    if !inside & (b == 40) {
        return depth + 1;
    }
    depth
}

// Whether place `i` has a mark. A table without room for it has none there.
fn marked(marks: &[bool], i: usize) -> bool
    ensures { result ≡ get_or marks.now i false }
{
    i < marks.len() && marks[i]
}

// The longest run that a destination without angle brackets can be, from `at` on. At an opening parenthesis that has a mark it is given up,
// with that one open.
pub fn raw_run(s: &[u8], at: usize, marks: &[bool]) -> Run
    ensures { result ≡ run_to marks.now (drop at s.now) at }
{
    let mut inside = false;
    let mut depth: usize = 0;
    for i in at..s.len() {
        let b = s[i];
        if (b < 33) | (b == 127) | (!inside & (b == 41) & (depth == 0)) {
            return Run { end: i, depth };
        }
        if b == 40 && marked(marks, i) {
            return Run { end: i, depth: 1 };
        }
        depth = depth_after(depth, b, inside);
        inside = !inside & scan::escape_at(s, i);
    }
    let end = at.max(s.len());
    Run { end, depth }
}

// The run as a destination: nonempty, with all parentheses closed.
#[tactic(auto, unfolding(crate::specs::Reading::judged))]
pub fn raw_part(at: usize, run: Run) -> Option<Part>
    ensures { result ≡ judged at run }
{
    let end = run.end;
    if (end == at) | (run.depth != 0) {
        return None;
    }
    Some(Part {
        start: at,
        end,
        next: end,
    })
}

// The content from `at` on, just after its opening delimiter.
fn enclosed(s: &[u8], at: usize, close: u8, bar: u8, other: u8) -> Option<Part>
    ensures { result ≡ enclosed_of close bar other (drop at s.now) at }
{
    let end = scan::closing_place(s, at, close, bar, other)?;
    Some(Part {
        start: at,
        end,
        next: end + 1,
    })
}

// The link destination that starts at `at`.
pub fn destination(s: &[u8], at: usize) -> Option<Part>
    ensures { result ≡ destination_of (drop at s.now) at }
{
    if scan::peek(s, at) == 60 {
        return enclosed(s, at + 1, 62, 60, 10);
    }
    raw_part(at, raw_run(s, at, &[]))
}

// The byte that closes a title that `q` opens.
#[tactic(auto, unfolding(crate::specs::Reading::closer))]
fn closing_quote(q: u8) -> u8
    ensures { result ≡ closer q }
{
    if q == 40 {
        return 41;
    }
    q
}

// The link title that starts at `at`.
pub fn title(s: &[u8], at: usize) -> Option<Part>
    ensures { result ≡ title_of (drop at s.now) at }
{
    let q = scan::peek(s, at);
    if (q == 34) | (q == 39) | (q == 40) {
        return enclosed(s, at + 1, closing_quote(q), q, q);
    }
    None
}
