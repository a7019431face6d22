// The definition table: rows of eight 32-bit numbers in a lent slice, and the lookup of a label in it.
#![tactic(auto)]

mod listing;

ghost use Rattle.std.specs.Prelude.{◌≡◌, ◌+◌, ◌<◌, ◌^◌, length, get_or};
ghost use Rattle.texts.specs.Texts.{texts, text_of};
ghost use Rattle.row.specs.First.{bytes_of};
ghost use Rattle.row.specs.Row.{range, absent, definition, SmallPart, Small, whole_rows, stored_range, stored_on};
ghost use Rattle.row.specs.Reading.{range_at, text_at, definition_at, label_at, Within, row_from};
ghost use Rattle.row.specs.Listing.{texts_of, row_with};

use alike::Place;
use folding::Table;
pub use listing::Definitions;

// A part of a text: where it starts, and where it ends. An absent part is 0 and 0.
#[derive(Clone, Copy, PartialEq, Eq)]
pub struct Range {
    pub start: usize,
    pub end: usize,
}

// The parts of a link reference definition, without their delimiters.
#[derive(Clone, Copy)]
pub struct Definition {
    pub label: Range,
    pub destination: Range,
    pub title: Range,
}

impl Range {
    pub fn new(start: usize, end: usize) -> Range
        ensures { result ≡ range start end }
    {
        Range { start, end }
    }

    pub fn absent() -> Range
        ensures { result ≡ absent }
    {
        Range { start: 0, end: 0 }
    }
}

impl Definition {
    // The numbers of a row.
    pub const WIDTH: usize = 8;

    pub fn new(label: Range, destination: Range, title: Range) -> Definition
        ensures { result ≡ definition label destination title }
    {
        Definition {
            label,
            destination,
            title,
        }
    }
}

// The whole rows that the table has room for.
pub fn whole_rows(table: &[u32]) -> usize
    ensures { result ≡ whole_rows table.now }
{
    table.len() / Definition::WIDTH
}

// Stores the start and the end of a part at `at`.
pub fn store_range(table: &mut [u32], at: usize, r: Range)
    requires at_in_bounds { at + 1 < length table.old }
    requires small_part { SmallPart r }
    ensures { table.new ≡ stored_range table.old at r }
{
    table[at] = r.start as u32;
    table[at + 1] = r.end as u32;
}

// Stores the row of a definition of this text on this line as row `k` if it fits, and else leaves the table as it was.
pub fn store(table: &mut [u32], k: usize, text: usize, d: Definition, line: usize)
    requires text_bound { text < 2 ^ 32 }
    requires small { Small d }
    requires line_bound { line < 2 ^ 32 }
    ensures { table.new ≡ stored_on text line table.old k d }
{
    if k < whole_rows(table) {
        let at = k * Definition::WIDTH;
        table[at] = text as u32;
        store_range(table, at + 1, d.label);
        store_range(table, at + 3, d.destination);
        store_range(table, at + 5, d.title);
        table[at + 7] = line as u32;
    }
}

// The part whose start and end stand at `at`.
pub fn range_at(table: &[u32], at: usize) -> Range
    requires { at + 1 < length table.now }
    ensures { result ≡ range_at table.now at }
{
    Range {
        start: table[at] as usize,
        end: table[at + 1] as usize,
    }
}

// The definition whose row is row `k`.
pub fn definition_at(table: &[u32], k: usize) -> Definition
    requires { k < whole_rows table.now }
    ensures { result ≡ definition_at table.now k }
{
    let at = k * Definition::WIDTH;
    let label = range_at(table, at + 1);
    let destination = range_at(table, at + 3);
    let title = range_at(table, at + 5);
    Definition {
        label,
        destination,
        title,
    }
}

// The number of the text that row `k` names.
pub fn text_at(table: &[u32], k: usize) -> usize
    requires { k < whole_rows table.now }
    ensures { result ≡ text_at table.now k }
{
    table[k * Definition::WIDTH] as usize
}

// The bytes of a part of the text with this number.
pub fn part_of<'a>(note: &'a [u8], sheet: &'a [u8], text: usize, r: Range) -> &'a [u8]
    requires { Within (text_of (texts note.now sheet.now) text) r }
    ensures { result.now ≡ bytes_of (text_of (texts note.now sheet.now) text) r }
{
    let Range { start, end } = r;
    if text == texts::NOTE {
        return &note[start..end];
    }
    &sheet[start..end]
}

// The label of the row that starts at `at`, from the text that the row names.
pub fn label_at<'a>(note: &'a [u8], sheet: &'a [u8], table: &[u32], at: usize) -> &'a [u8]
    requires at_in_bounds { at + 2 < length table.now }
    requires within { Within (text_of (texts note.now sheet.now) (get_or table.now at 0)) (range_at table.now (at + 1)) }
    ensures { result.now ≡ label_at (texts note.now sheet.now) table.now at }
{
    let r = range_at(table, at + 1);
    part_of(note, sheet, table[at] as usize, r)
}

// The first row from row `from` on whose label equals `label`; with the table of folding at hand.
fn lookup_folded<'a>(table: &Table, d: &Definitions<'a>, from: usize, label: &[u8]) -> Option<usize>
    ensures { result ≡ row_from (texts_of d.now) d.now.table.now label.now from d.now.count }
{
    for k in from..d.count {
        if alike::same_folded(table, d.label(k), label) {
            return Some(k);
        }
    }
    None
}

// The same with the table of folding.
#[inline(never)]
fn lookup_by_table<'a>(d: &Definitions<'a>, from: usize, label: &[u8]) -> Option<usize>
    ensures { result ≡ row_from (texts_of d.now) d.now.table.now label.now from d.now.count }
{
    lookup_folded(&Table::new(), d, from, label)
}

// The first row whose label equals `label`. Rows are passed without the table of folding, up to the first that asks for it. The project's rule
// on the lookup names this form: a labelled loop over the rows and in it a loop over the label's characters, where `continue` passes an unequal
// row and `break` yields the first equal one. So it is no `for` that asks `alike::same_quick`; and `k` is counted, since a `for` yields no value.
fn lookup_bytes<'a>(d: &Definitions<'a>, label: &[u8]) -> Option<usize>
    ensures { result ≡ row_with d.now label.now }
{
    let first = scan::peek(label, 0);
    let mut k = 0;
    'rows: loop {
        if d.count <= k {
            break 'rows None;
        }
        let own = d.label(k);
        if alike::are_unlike(scan::peek(own, 0), first) {
            k += 1;
            continue 'rows;
        }
        let mut i = alike::same_count(own, label, 0, 0, alike::ASCII);
        let mut j = i;
        loop {
            let x = Place::after(own, i);
            let y = Place::after(label, j);
            if x.is_apart_from(&y) {
                k += 1;
                continue 'rows;
            }
            if x.is_over() {
                break 'rows Some(k);
            }
            let Some(n) = alike::shared(&x, &y) else {
                break 'rows lookup_by_table(d, k, label);
            };
            i = x.at + n;
            j = y.at + n;
        }
    }
}

// The same. Where the label begins beyond ASCII and the first row's otherwise, the table is asked from the start.
pub fn lookup<'a>(d: &Definitions<'a>, label: &[u8]) -> Option<usize>
    ensures { result ≡ row_with d.now label.now }
{
    if d.count == 0 {
        return None;
    }
    let first = scan::peek(label, 0);
    if (alike::ASCII < first) & (scan::peek(d.label(0), 0) != first) {
        return lookup_by_table(d, 0, label);
    }
    lookup_bytes(d, label)
}
