// The definition table of a note and the sheet beside it, and the list of the note's paragraphs.
#![tactic(auto)]

ghost use Rattle.std.specs.Prelude.{◌≡◌, ◌+◌, ◌≤◌, ◌<◌, ◌^◌, ltb, length};
ghost use Rattle.line.specs.Promise.{line_if, Before};
ghost use Rattle.definition.specs.Reading.{definitions};
ghost use Rattle.texts.specs.Texts.{texts};
ghost use Rattle.row.specs.Row.{opening, whole_rows, filled, stored_all};
ghost use Rattle.joined.specs.Reading.{joined};
ghost use Rattle.text.specs.Utf8.{note_limit};
ghost use Rattle.walk.specs.Promise.{Remembers};

use line::Line;
use row::Definition;
use walk::{Cursor, Item};

// How many definitions there are in both texts, and how many paragraphs in the note.
#[derive(Clone, Copy)]
pub struct Filled {
    pub definitions: usize,
    pub paragraphs: usize,
}

// The line of a definition's opening bracket, from an earlier one on, if the definition fits as row `k`; and else the latter: then no line
// is asked for.
fn line_of(s: &[u8], table: &[u32], k: usize, d: Definition, from: Line) -> Line
    requires le_start { 1 ≤ d.label.start }
    requires before { Before s.now from (opening d) }
    requires d_in_bounds { opening d < length s.now }
    ensures { result ≡ line_if (ltb k (whole_rows table.now)) s.now from (opening d) }
{
    if row::whole_rows(table) <= k {
        return from;
    }
    line::line_at(s, from, d.label.start - 1)
}

// Stores the rows of the definitions of the text `s`, whose number is `text`, from row `from` on, as many as fit, and remembers its paragraphs in the
// list, as many as fit. Returns the number of the row after them and how many paragraphs there are.
#[tactic(auto, using(crate::proofs::Filling::stands_there, crate::proofs::Filling::line_there, crate::proofs::Filling::same_size, crate::proofs::Filling::same_list, crate::proofs::Filling::all_counted, crate::proofs::Filling::all_stored, crate::proofs::Filling::all_remembered))]
fn fill_text(s: &[u8], text: usize, table: &mut [u32], from: usize, list: &mut [u16]) -> Filled
    requires s_len_bound { length s.now ≤ note_limit }
    requires text_bound { text < 2 ^ 32 }
    requires from_bound { from < 2 ^ 32 }
    ensures counted { result.definitions ≡ from + length (definitions s.now) }
    ensures stored { table.new ≡ stored_all text s.now table.old from (definitions s.now) }
    ensures listed { length s.now < length list.old → Remembers s.now list.new result.paragraphs }
{
    let mut next = from;
    let mut paragraphs = 0;
    let mut c = Cursor { at: 0, end: 0 };
    let mut line = Line::none();
    while let Some(item) = walk::next_item(s, c) {
        match item {
            Item::Definition(d, after) => {
                line = line_of(s, table, next, d, line);
                row::store(table, next, text, d, line.number);
                next += 1;
                c = after;
            }
            Item::Paragraph(start, end, after) => {
                walk::remember(list, paragraphs, start, end);
                paragraphs += 1;
                c = after;
            }
        }
    }
    Filled {
        definitions: next,
        paragraphs,
    }
}

// Stores the rows of the joined list, the note's definitions and then the sheet's, as many as fit, and counts them: with an empty table it only
// counts them. The note's paragraphs are remembered in the list.
pub fn fill_joined(note: &[u8], sheet: &[u8], table: &mut [u32], list: &mut [u16]) -> Filled
    requires note_len_bound { length note.now ≤ note_limit }
    requires sheet_len_bound { length sheet.now ≤ note_limit }
    requires note_in_bounds { length note.now < length list.old }
    ensures counted { result.definitions ≡ length (joined (texts note.now sheet.now)) }
    ensures stored { table.new ≡ filled (texts note.now sheet.now) (joined (texts note.now sheet.now)) table.old }
    ensures listed { Remembers note.now list.new result.paragraphs }
{
    let own = fill_text(note, texts::NOTE, table, 0, list);
    let all = fill_text(sheet, texts::SHEET, table, own.definitions, &mut list[..0]);
    Filled {
        definitions: all.definitions,
        paragraphs: own.paragraphs,
    }
}
