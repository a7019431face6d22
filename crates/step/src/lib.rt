// Past one piece of a paragraph: what it comes to, and the row of the span that ends with it.
#![tactic(auto)]

ghost use Rattle.std.specs.Prelude.{◌≡◌, cond, ltb, ℕ, ◌+◌, ◌<◌, ◌^◌, length, get_or, None, Some};
ghost use Rattle.index.specs.Rows.{ReadyFor};
ghost use Rattle.parens.specs.Unclosed.{Prepared};
ghost use Rattle.ticks.specs.LastRuns.{Ready};
ghost use Rattle.inline.specs.Reading.{tail_at};
ghost use Rattle.tail.specs.Ending.{all_labels, shown?, Sized?};
ghost use Rattle.step.specs.Reading.{all_definitions};
ghost use Rattle.step.specs.Promise.{last_place, first, afresh, lined, opening_end, TextTo, LinedPair, BacktickAt, Bounds, Lined, Closes, Passes};

use line::Line;
use row::{Definitions, Range};
use span::Span;
use tail::ReadTail;

// Where the reading stands: its place, the place of the last link's `[`, the next span's row, how many brackets are open, and the last
// line that was asked for.
#[derive(Clone, Copy)]
pub struct Walk {
    pub at: usize,
    pub last: Option<usize>,
    pub row: usize,
    pub depth: usize,
    pub line: Line,
}

impl Walk {
    // Before the first paragraph.
    pub fn first() -> Walk
        ensures { result ≡ first }
    {
        Walk {
            at: 0,
            last: None,
            row: 0,
            depth: 0,
            line: Line::none(),
        }
    }
}

// At a paragraph's start, with no bracket open: rows and lines go on from those before it.
pub fn afresh(from: Walk) -> Walk
    ensures { result ≡ afresh from }
{
    let mut w = from;
    w.at = 0;
    w.last = None;
    w.depth = 0;
    w
}

// The walk with the line of its place, if a row more can be stored: else no line is asked for. Often it is the line that was asked for
// last.
pub fn count_lines(note: &[u8], start: usize, spans: &[u32], w: Walk) -> Walk
    requires { Lined note.now start w }
    ensures { result ≡ lined note.now start spans.now w }
{
    let place = start + w.at;
    if (span::whole_rows(spans) <= w.row) | (place < w.line.end) {
        return w;
    }
    let line = w.line;
    let mut v = w;
    v.line = line::line_at(note, line, place);
    v
}

// Where the opening piece ends that starts at a place: `[` or `![`.
pub fn opening_end(p: &[u8], at: usize) -> Option<usize>
    requires { at < length p.now }
    ensures { result ≡ opening_end p.now at }
{
    if p[at] == 91 {
        return Some(at + 1);
    }
    if p[at] != 33 {
        return None;
    }
    if scan::peek(p, at + 1) == 91 {
        return Some(at + 2);
    }
    None
}

// The tail of the pair whose text starts at `from` and whose closing bracket stands at `closing`.
fn tail_at<'a>(
    p: &[u8],
    from: usize,
    closing: usize,
    definitions: &Definitions<'a>,
    index: &mut [u32],
    marks: &mut [bool],
) -> Option<ReadTail>
    requires text_to { TextTo p.now from closing }
    requires indexed { ReadyFor definitions.now index.old }
    requires prepared { Prepared p.now closing marks.old }
    ensures result_value { shown? (closing + 1) result ≡ tail_at p.now (all_labels definitions.now) from closing }
    ensures sized { Sized? result }
    ensures indexed_2 { ReadyFor definitions.now index.new }
    ensures prepared_2 { Prepared p.now (closing + 1) marks.new }
{
    let next = closing + 1;
    let text = &p[from..closing];
    let rest = &p[next..];
    let own = &mut marks[next..];
    tail::tail_after(text, rest, definitions, index, own)
}

// Whether the last link opens after `opening`.
fn holds_link(opening: usize, last: Option<usize>) -> bool
    ensures { result ≡ ltb opening (last_place last) }
{
    last.is_some_and(|last| opening < last)
}

// The place of the last link's `[` after the pair that opens at `opening` is taken: an image is no link.
fn last_link(image: bool, last: Option<usize>, opening: usize) -> Option<usize>
    ensures { result ≡ cond image last (Some opening) }
{
    if image { last } else { Some(opening) }
}

// The numbers of a table have 32 bits, as those of a row have to have.
fn small_numbers(table: &[u32])
    ensures { (i : ℕ) → get_or table.now i 0 < 2 ^ 32 }
{}

// Past the `]` at the walk's place, whose pair opens at `opening`, on this line if a row more can be stored. That bracket is open no
// longer.
pub fn close_pair<'a>(
    p: &[u8],
    start: usize,
    definitions: &Definitions<'a>,
    index: &mut [u32],
    spans: &mut [u32],
    w: Walk,
    opening: usize,
    line: usize,
    marks: &mut [bool],
) -> Walk
    requires lined_pair { LinedPair definitions.now.note.now start p.now spans.old w opening line }
    requires bounds { Bounds start p.now definitions.now.count w }
    requires indexed { ReadyFor definitions.now index.old }
    requires prepared { Prepared p.now w.at marks.old }
    ensures closes { Closes definitions.now.note.now start p.now (all_labels definitions.now) (all_definitions definitions.now) opening w spans.old result spans.new }
    ensures prepared_2 { Prepared p.now result.at marks.new }
    ensures indexed_2 { ReadyFor definitions.now index.new }
{
    let next = w.at + 1;
    let mut v = w;
    v.at = next;
    v.depth = w.depth - 1;
    let image = p[opening] == 33;
    if !image & holds_link(opening, w.last) {
        return v;
    }
    let from = link::text_from(image, opening);
    let Some(t) = tail_at(p, from, w.at, definitions, index, marks) else {
        return v;
    };
    let d = definitions;
    small_numbers(d.table);
    let row = link::pair_row(start, image, opening, w.at, t, d.table, d.count);
    span::store(spans, w.row, row, line);
    v.at = next + t.length;
    v.last = last_link(image, w.last, opening);
    v.row = w.row + 1;
    v
}

// Past the backticks at the walk's place: a code span, or plain text.
fn pass_backticks(
    p: &[u8],
    start: usize,
    note: &[u8],
    spans: &mut [u32],
    w: Walk,
    runs: &mut Option<[u32; ticks::LENGTHS]>,
) -> Walk
    requires backtick_at { BacktickAt p.now w }
    requires bounds { Bounds start p.now 0 w }
    requires lined { Lined note.now start w }
    requires ready { Ready p.now runs.old }
    ensures passes { Passes note.now start p.now w spans.old result spans.new }
    ensures ready_2 { Ready p.now runs.new }
{
    let at = w.at;
    let first = ticks::backticks_end(p, at);
    let n = first - at;
    let Some(e) = ticks::closing_run_lazy(p, first, n, runs) else {
        let mut v = w;
        v.at = first;
        return v;
    };
    let whole = Range::new(start + at, start + e);
    let text = Range::new(start + first, start + (e - n));
    let mut v = count_lines(note, start, spans, w);
    span::store(spans, w.row, Span::code_span(whole, text), v.line.number);
    v.at = e;
    v.row = w.row + 1;
    v
}

// Past a piece that opens no bracket, and closes no pair.
// A struct of p, start and note would be no plainer: lines are counted without p, and a pair that closes has the note with its definitions.
pub fn pass_piece(
    p: &[u8],
    start: usize,
    note: &[u8],
    spans: &mut [u32],
    w: Walk,
    runs: &mut Option<[u32; ticks::LENGTHS]>,
) -> Walk
    requires at_in_bounds { w.at < length p.now }
    requires at_value { opening_end p.now w.at ≡ None }
    requires bounds { Bounds start p.now 0 w }
    requires lined { Lined note.now start w }
    requires ready { Ready p.now runs.old }
    ensures passes { Passes note.now start p.now w spans.old result spans.new }
    ensures ready_2 { Ready p.now runs.new }
{
    let at = w.at;
    if p[at] == 96 {
        return pass_backticks(p, start, note, spans, w, runs);
    }
    let mut v = w;
    if scan::escape_at(p, at) {
        v.at = at + 2;
        return v;
    }
    v.at = at + 1;
    v
}
