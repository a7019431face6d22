// Where span rows call for something on the page. A table tells for each place of the note which row starts there; beside it a cursor into
// the span table, which never goes back, tells the next link or image whose text ends.
#![tactic(auto)]

ghost use Rattle.std.specs.Prelude.{◌≡◌, ℕ, ◌+◌, ◌≤◌, ◌<◌, replicate};
ghost use Rattle.scan.specs.Reading.{past};
ghost use Rattle.span.specs.Row.{numbers_on, whole_rows};
ghost use Rattle.cursor.specs.Cursor.{waits, Finds, closing_place};
ghost use Rattle.cursor.specs.Entries.{start_in};
ghost use Rattle.cursor.specs.Starts.{places, free, entry_of, tags_in, Started, rows_from, Startable, described_from};

use scan::Class;
use span::Span;

// A place for each byte that a note may have.
pub const PLACES: usize = text::NOTE_LIMIT;

// ---- the table of places
// Its memory is fixed, two bytes a place: an entry is 0 where no row starts, else the row's number from 1, and this much more where no tags
// are written for the row.
const SILENT: u16 = PLACES as u16;

// A row, and whether tags are written for it.
#[derive(Clone, Copy)]
pub struct Start {
    pub row: usize,
    pub tags: bool,
}

// The entry of row `k`, with tags or without.
fn entry_of(k: usize, tags: bool) -> u16
    requires { k + 1 < places }
    ensures { result ≡ entry_of k tags }
{
    let number = (k + 1) as u16;
    if tags { number } else { number + SILENT }
}

// Whether tags are written for the row of an entry.
pub fn has_tags(entry: u16) -> bool
    ensures { result ≡ tags_in entry }
{
    entry < SILENT
}

// The row that starts at the place of an entry.
pub fn start_of(entry: u16) -> Option<Start>
    ensures { result ≡ start_in entry }
{
    if entry == 0 {
        return None;
    }
    Some(Start {
        row: ((entry - 1) % SILENT) as usize,
        tags: has_tags(entry),
    })
}

// Where the first description starts of the images that were met: those before, and this row if it is one.
fn described_from(row: Span, from: usize) -> usize
    ensures { (line : ℕ) → result ≡ described_from (numbers_on line row) from }
{
    if row.is_image() {
        row.text.start.min(from)
    } else {
        from
    }
}

// Fills the table, which is empty, with the first `count` rows. It goes from the last one back: an image stands after all that it holds, so
// that a row starts in a description exactly if the first one met so far starts no later.
pub fn mark_starts(spans: &[u32], count: usize, starts: &mut [u16; PLACES])
    requires count_bound { count ≤ whole_rows spans.now }
    requires startable { Startable (rows_from spans.now 0 count) }
    requires starts_value { starts.old ≡ replicate places 0 }
    ensures { Started (rows_from spans.now 0 count) starts.new }
{
    let mut from = PLACES;
    for k in (0..count).rev() {
        let row = span::span_at(spans, k);
        let at = row.whole.start;
        starts[at] = entry_of(k, at < from);
        from = described_from(row, from);
    }
}

// The entries of places where no row starts.
#[derive(Drop)]
struct Free;

impl Class<u16> for Free {
    ghost has = { λ _ e. free e };

    fn holds(&self, entry: u16) -> bool {
        entry == 0
    }
}

// The first place from `at` on where a row starts; the end of what is lent is one.
pub fn next_start(starts: &[u16], at: usize) -> usize
    ensures { result ≡ past free starts.now at }
{
    scan::past_long(starts, at, &Free)
}

// ---- the cursor
// Whether a row is a link or an image whose text does not end before `at`, whatever its line.
fn row_waits(row: Span, at: usize) -> bool
    ensures { (line : ℕ) → result ≡ waits at (numbers_on line row) }
{
    !row.is_code_span() & (at <= row.text.end)
}

// The first row from row `start` on that waits. It is a place in the table, and no `Option`: where no row waits, the cursor stands past the last.
pub fn next_closing(spans: &[u32], count: usize, start: usize, at: usize) -> usize
    requires { count ≤ whole_rows spans.now }
    ensures { Finds spans.now count at start result }
{
    for k in start..count {
        if row_waits(span::span_at(spans, k), at) {
            return k;
        }
    }
    start.max(count)
}

// Where the text of row `k` ends, or `end` if that comes first or there is no such row.
pub fn closing_place(spans: &[u32], count: usize, k: usize, end: usize) -> usize
    requires { count ≤ whole_rows spans.now }
    ensures { result ≡ closing_place spans.now count k end }
{
    if k < count {
        span::span_at(spans, k).text.end.min(end)
    } else {
        end
    }
}
