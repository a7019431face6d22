// The spans of one paragraph, read from left to right.
#![tactic(auto)]

#[cfg(test)]
mod tests;

ghost use Rattle.std.specs.Prelude.{◌≡◌};
ghost use Rattle.row.specs.First.{bytes_of};
ghost use Rattle.row.specs.Row.{range};
ghost use Rattle.index.specs.Rows.{ReadyFor};
ghost use Rattle.parens.specs.Unclosed.{Prepared};
ghost use Rattle.tail.specs.Ending.{all_labels};
ghost use Rattle.span.specs.Row.{whole_rows};
ghost use Rattle.step.specs.Reading.{all_definitions};
ghost use Rattle.step.specs.Promise.{Bounds, Lined, lined};
ghost use Rattle.paragraph.specs.Promise.{cleared, opened, pushed, Room, Waits, Closing, Brackets, Lies, Lent as IsLent, Reads};

use row::Definitions;
use step::Walk;

// The most brackets that may be open at once.
pub const DEPTH_LIMIT: usize = 1024;

// A bracket that is open: its place in the paragraph, and its line if a row more can be stored.
#[derive(Clone, Copy)]
pub struct Bracket {
    pub at: u32,
    pub line: u32,
}

// Room for the reading of paragraphs, for a caller that has none of its own: it lends the three parts. What they hold is of no account. The
// stack has the brackets that are open.
#[derive(Drop)]
pub struct Lent<const MARKS: usize> {
    pub stack: [Bracket; DEPTH_LIMIT],
    pub runs: Option<[u32; ticks::LENGTHS]>,
    pub marks: [bool; MARKS],
}

impl<const MARKS: usize> Lent<MARKS> {
    pub fn new() -> Lent<MARKS>
        ensures { result ≡ cleared MARKS }
    {
        Lent {
            stack: [Bracket { at: 0, line: 0 }; DEPTH_LIMIT],
            runs: None,
            marks: [false; MARKS],
        }
    }
}

// The place in the note of the first bracket too many.
#[derive(Clone, Copy)]
pub struct Deep {
    pub place: usize,
}

// Past the opening piece that starts at the walk's place and ends at `end`: its bracket is open from now on.
fn open_bracket(
    note: &[u8],
    start: usize,
    spans: &[u32],
    w: Walk,
    end: usize,
    stack: &mut [Bracket],
) -> Walk
    requires lined { Lined note.now start w }
    requires room { Room start w end stack.old }
    ensures value { result ≡ opened end (lined note.now start spans.now w) }
    ensures stack_after { stack.new ≡ pushed stack.old w result.line.number }
{
    let mut v = step::count_lines(note, start, spans, w);
    stack[w.depth] = Bracket {
        at: w.at as u32,
        line: v.line.number as u32,
    };
    v.at = end;
    v.depth = w.depth + 1;
    v
}

// Past the `]` at the walk's place, which closes the innermost of the brackets that are open.
fn close_bracket<'a>(
    p: &[u8],
    start: usize,
    definitions: &Definitions<'a>,
    index: &mut [u32],
    spans: &mut [u32],
    w: Walk,
    stack: &[Bracket],
    marks: &mut [bool],
) -> Walk
    requires closing { Closing p.now w }
    requires waits { Waits definitions.now.note.now start p.now (whole_rows spans.old) w stack.now }
    requires bounds { Bounds start p.now definitions.now.count w }
    requires indexed { ReadyFor definitions.now index.old }
    requires prepared { Prepared p.now w.at marks.old }
    requires lined { Lined definitions.now.note.now start w }
    ensures brackets { Brackets definitions.now.note.now start p.now (all_labels definitions.now) (all_definitions definitions.now) w stack.now spans.old result stack.now spans.new }
    ensures prepared_2 { Prepared p.now result.at marks.new }
    ensures indexed_2 { ReadyFor definitions.now index.new }
{
    let Bracket { at, line } = stack[w.depth - 1];
    let opening = at as usize;
    let line = line as usize;
    step::close_pair(p, start, definitions, index, spans, w, opening, line, marks)
}

// The spans of the paragraph that stands in the note from `start` to `end`: their rows go into `spans` from the row of `from` on,
// as far as they fit. `index` is lent for an index of the definitions. `stack`, `runs` and `marks` are lent to be written in: what they hold is
// of no account. One of the marks says that nothing of this paragraph stands there yet; of the stack only what has been put on it is read.
pub fn read_paragraph<'a>(
    start: usize,
    end: usize,
    definitions: &Definitions<'a>,
    index: &mut [u32],
    spans: &mut [u32],
    from: Walk,
    stack: &mut [Bracket],
    runs: &mut Option<[u32; ticks::LENGTHS]>,
    marks: &mut [bool],
) -> Result<Walk, Deep>
    requires lies { Lies definitions.now.note.now start end definitions.now.count from }
    requires indexed { ReadyFor definitions.now index.old }
    requires lent { IsLent definitions.now.note.now stack.old marks.old }
    ensures reads { Reads definitions.now.note.now start (bytes_of definitions.now.note.now (range start end)) (all_labels definitions.now) (all_definitions definitions.now) from.row spans.old result spans.new }
    ensures indexed_2 { ReadyFor definitions.now index.new }
{
    let note = definitions.note;
    let p = &note[start..end];
    ticks::forget(runs);
    marks[p.len()] = false;
    let mut w = step::afresh(from);
    while w.at < p.len() {
        if let Some(next) = step::opening_end(p, w.at) {
            if w.depth == DEPTH_LIMIT {
                return Err(Deep {
                    place: start + (next - 1),
                });
            }
            w = open_bracket(note, start, spans, w, next, stack);
        } else if (p[w.at] == 93) & (0 < w.depth) {
            w = close_bracket(p, start, definitions, index, spans, w, stack, marks);
        } else {
            w = step::pass_piece(p, start, note, spans, w, runs);
        }
        w.at = inline::plain_end(p, w.at);
    }
    Ok(w)
}
