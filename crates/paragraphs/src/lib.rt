// The paragraphs of a note, read one after the other.
#![tactic(auto)]

ghost use Rattle.std.specs.Prelude.{◌≡◌, true, ◌<◌, ◌^◌, length};
ghost use Rattle.row.specs.Listing.{texts_of};
ghost use Rattle.index.specs.Rows.{ReadyFor};
ghost use Rattle.paragraph.specs.Promise.{Lent};
ghost use Rattle.paragraphs.specs.Spans.{Defined, NoteMarked, Surely};

use paragraph::{Bracket, Deep};
use row::Definitions;
use step::Walk;
use walk::{Paragraph, Paragraphs};

// Whether so many rows are surely enough for the note's spans, and no bracket is surely too many: told by the bytes of its paragraphs.
pub fn surely_fits<'a>(paragraphs: &Paragraphs<'a>, rows: usize) -> bool
    requires { length paragraphs.now.note.now < 2 ^ 32 }
    ensures { result ≡ true → Surely paragraphs.now.note.now rows }
{
    let mut at = 0;
    let mut ends = 0;
    let mut held = 0;
    for k in 0..paragraphs.count {
        let Paragraph { start, end, next } = paragraphs.next(k, at).unwrap();
        let most = most::most_of(&paragraphs.note[start..end]);
        ends += most.ends;
        held += most.held;
        at = next;
    }
    (ends <= rows) & (held < paragraph::DEPTH_LIMIT)
}

// The spans of the note's paragraphs: stores their rows, as many as fit, and counts them; or the place of the first bracket too many.
pub fn note_spans<'a>(
    definitions: &Definitions<'a>,
    index: &mut [u32],
    paragraphs: &Paragraphs<'a>,
    spans: &mut [u32],
    stack: &mut [Bracket],
    runs: &mut Option<[u32; ticks::LENGTHS]>,
    marks: &mut [bool],
) -> Result<Walk, Deep>
    requires same_note { paragraphs.now.note.now ≡ definitions.now.note.now }
    requires defined { Defined (texts_of definitions.now) definitions.now.table.now definitions.now.count }
    requires indexed { ReadyFor definitions.now index.old }
    requires lent { Lent definitions.now.note.now stack.old marks.old }
    ensures note_marked { NoteMarked (texts_of definitions.now) spans.old result spans.new }
    ensures indexed_2 { ReadyFor definitions.now index.new }
{
    let mut at = 0;
    let mut w = Walk::first();
    for k in 0..paragraphs.count {
        let Paragraph { start, end, next } = paragraphs.next(k, at).unwrap();
        w = paragraph::read_paragraph(
            start,
            end,
            definitions,
            index,
            spans,
            w,
            stack,
            runs,
            marks,
        )?;
        at = next;
    }
    Ok(w)
}
