// The page writer: a note's HTML.
#![tactic(auto)]

ghost use Rattle.std.specs.Prelude.{◌≡◌, length};
ghost use Rattle.texts.specs.Texts.{texts};
ghost use Rattle.joined.specs.Reading.{Listing};
ghost use Rattle.page.specs.Reading.{page_of};
ghost use Rattle.cursor.specs.Spanned.{Spanned};
ghost use Rattle.rendering.specs.declared.Refusal.TheVariants.{Unread};
ghost use Rattle.rendering.specs.Answers.{refusal_number, refusal_value, refusal_text};
ghost use Rattle.rendering.specs.Reading.{with_page, page_buffer_of};
ghost use Rattle.rendering.specs.Promise.{Promise};

use notice::{Counts, Listed};
use walk::Paragraphs;
use writer::Source;

// The page writer's answer on success: the counts of definitions and spans, and how many bytes the HTML has.
#[derive(Clone, Copy)]
pub struct Rendered {
    pub counts: Counts,
    pub bytes: usize,
}

// A refusal: the reader's, or too short a page with the bytes needed.
#[derive(Clone, Copy)]
pub enum Refusal {
    Unread(notice::Refusal),
    ShortPage(usize),
}

impl Refusal {
    // Document 01's number of the refusal.
    pub fn number(self) -> u32
        ensures { result ≡ refusal_number self }
    {
        match self {
            Refusal::Unread(refusal) => refusal.number(),
            Refusal::ShortPage(_) => 6,
        }
    }

    // What is returned with it.
    pub fn value(self) -> usize
        ensures { result ≡ refusal_value self }
    {
        match self {
            Refusal::Unread(refusal) => refusal.value(),
            Refusal::ShortPage(bytes) => bytes,
        }
    }

    // The text that it is about; 0 where it is about neither.
    pub fn text(self) -> usize
        ensures { result ≡ refusal_text self }
    {
        match self {
            Refusal::Unread(refusal) => refusal.text(),
            Refusal::ShortPage(_) => 0,
        }
    }
}

impl From<notice::Refusal> for Refusal {
    ghost from_gives = { λ refusal r. r ≡ Unread refusal };

    fn from(refusal: notice::Refusal) -> Refusal {
        Refusal::Unread(refusal)
    }
}

// Writes the page of a note whose rows stand in both tables, if it fits: counts its bytes first, and then writes them.
fn render_rows<'a>(
    note: &'a [u8],
    sheet: &'a [u8],
    definitions: &'a [u32],
    spans: &'a [u32],
    counts: Counts,
    paragraphs: &Paragraphs,
    page: &mut [u8],
) -> Result<Rendered, Refusal>
    requires spanned { Spanned (texts note.now sheet.now) spans.now counts.spans }
    requires listing { Listing (texts note.now sheet.now) definitions.now }
    requires same_note { paragraphs.now.note.now ≡ note.now }
    ensures value { result ≡ with_page (length (page_of (texts note.now sheet.now))) (length page.old) counts }
    ensures page_after { page.new ≡ page_buffer_of (texts note.now sheet.now) result page.old }
{
    let mut starts = [0u16; cursor::PLACES];
    cursor::mark_starts(spans, counts.spans, &mut starts);
    let source = Source {
        note,
        sheet,
        definitions,
        spans,
        count: counts.spans,
        starts: &starts,
    };
    let bytes = writer::write_page(&source, paragraphs, &mut []);
    if page.len() < bytes {
        return Err(Refusal::ShortPage(bytes));
    }
    writer::write_page(&source, paragraphs, page);
    Ok(Rendered { counts, bytes })
}

// Writes a note's page, with the sheet beside it: fills the two tables and the page buffer that are lent, or refuses.
pub fn render<'a>(
    note: &'a [u8],
    sheet: &'a [u8],
    release: bool,
    definitions: &mut [u32],
    spans: &mut [u32],
    page: &mut [u8],
) -> Result<Rendered, Refusal>
    ensures { Promise release (texts note.now sheet.now) definitions.old spans.old page.old result (texts note.exit.now sheet.exit.now) definitions.new spans.new page.new }
{
    let mut list = [0u16; walk::LIST];
    let Listed { counts, paragraphs } = notice::read_listed(
        note,
        sheet,
        release,
        definitions,
        spans,
        &mut list,
    )?;
    let paragraphs = Paragraphs {
        note,
        list: &list,
        count: paragraphs,
    };
    render_rows(note, sheet, definitions, spans, counts, &paragraphs, page)
}
