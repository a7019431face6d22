// The page of a note, written from the rows of both tables in one pass over its bytes, with a table of the places where rows start. What does
// not fit into the page is counted and not stored.
#![tactic(auto)]

ghost use Rattle.std.specs.Prelude.{◌≡◌, ◌≤◌, length};
ghost use Rattle.scan.specs.Member.{In};
ghost use Rattle.texts.specs.Texts.{texts};
ghost use Rattle.row.specs.First.{named_text};
ghost use Rattle.joined.specs.Reading.{joined};
ghost use Rattle.span.specs.Row.{numbers};
ghost use Rattle.note.specs.Reading.{span_rows};
ghost use Rattle.buffer.specs.Stored.{HasRoom, Writes, Grows};
ghost use Rattle.page.specs.Reading.{open_tag, close_tag, page_of};
ghost use Rattle.writer.specs.Pass.{Ready, texts_of, StartsHere, ClosesHere, Room, Passes, TextAhead, PassesText, Stands, Goes, Starts, Ends};

use buffer::Page;
use span::Span;
use walk::{Paragraph, Paragraphs};

// What a page is written from: the note and its sheet, the definition table, which holds the joined list, the first `count` rows of the span
// table, which are the note's, and the table of the places where these rows start. `Ready`, which is required of it, is no ghost field: that
// needs a fact with at most one proof, and `Started` says which row each entry is of.
#[derive(Clone, Copy)]
pub struct Source<'a> {
    pub note: &'a [u8],
    pub sheet: &'a [u8],
    pub definitions: &'a [u32],
    pub spans: &'a [u32],
    pub count: usize,
    pub starts: &'a [u16],
}

// Where the pass stands: the place in the note, and the row of the next link or image whose text ends.
#[derive(Clone, Copy)]
struct Pass {
    at: usize,
    close: usize,
}

// The text in which the destination and the title of a link or an image lie, by its definition number: the one that the definition's row
// names, and for 0 the note.
fn text_for<'a>(source: &Source<'a>, number: usize) -> &'a [u8]
    requires ready { Ready source.now }
    requires number_in_bounds { number ≤ length (joined (texts_of source.now)) }
    ensures { result.now ≡ named_text (texts_of source.now) (joined (texts_of source.now)) number }
{
    if number == 0 {
        return source.note;
    }
    if row::text_at(source.definitions, number - 1) == texts::NOTE {
        return source.note;
    }
    source.sheet
}

// What the row of a link or an image calls for at its start: the tag of the link, or that of the image up to its description.
fn put_open(source: &Source, row: Span, page: &mut Page)
    requires ready { Ready source.now }
    requires is_row { In (numbers source.now.note.now row) (span_rows (texts_of source.now)) }
    requires room { HasRoom page.old (open_tag (texts_of source.now) (joined (texts_of source.now)) (numbers source.now.note.now row)) }
    ensures { Grows page.old (open_tag (texts_of source.now) (joined (texts_of source.now)) (numbers source.now.note.now row)) page.new }
{
    let text = text_for(source, row.definition);
    let destination = &text[row.destination.start..row.destination.end];
    if row.is_image() {
        html::put_image_open(page, destination);
    } else {
        html::put_link_open(page, destination, &text[row.title.start..row.title.end]);
    }
}

// What it calls for where its text ends: `</a>`, or the rest of the image's tag.
fn put_close(source: &Source, row: Span, page: &mut Page)
    requires ready { Ready source.now }
    requires is_row { In (numbers source.now.note.now row) (span_rows (texts_of source.now)) }
    requires room { HasRoom page.old (close_tag (texts_of source.now) (joined (texts_of source.now)) (numbers source.now.note.now row)) }
    ensures { Grows page.old (close_tag (texts_of source.now) (joined (texts_of source.now)) (numbers source.now.note.now row)) page.new }
{
    if row.is_image() {
        let text = text_for(source, row.definition);
        html::put_image_close(page, &text[row.title.start..row.title.end]);
    } else {
        page.put(b"</a>");
    }
}

// What the row that starts at place `at` calls for there, with tags or without: a code span, or the start of a link or an image. Gives the
// place after what it stands for.
fn write_start(
    source: &Source,
    end: usize,
    row: Span,
    tags: bool,
    at: usize,
    page: &mut Page,
) -> usize
    requires ready { Ready source.now }
    requires starts_here { StartsHere (texts_of source.now) end (numbers source.now.note.now row) tags at }
    requires room { Room (texts_of source.now) end at page.old }
    ensures { Passes (texts_of source.now) end at page.old result page.new }
{
    if row.is_code_span() {
        code::put_code_span(page, tags, &source.note[row.text.start..row.text.end]);
        return row.whole.end;
    }
    if tags {
        put_open(source, row, page);
    }
    row.text.start
}

// What the link or image whose text ends at place `at` calls for there, with tags or without, in place of its tail. Gives the place after it.
fn write_close(
    source: &Source,
    end: usize,
    row: Span,
    tags: bool,
    at: usize,
    page: &mut Page,
) -> usize
    requires ready { Ready source.now }
    requires closes_here { ClosesHere (texts_of source.now) end (numbers source.now.note.now row) tags at }
    requires room { Room (texts_of source.now) end at page.old }
    ensures { Passes (texts_of source.now) end at page.old result page.new }
{
    if tags {
        put_close(source, row, page);
    }
    row.whole.end
}

// Text from place `at` up to `stop`, and an escape whole that starts before it. Gives the place after it.
fn write_text(note: &[u8], end: usize, stop: usize, at: usize, page: &mut Page) -> usize
    requires { TextAhead note.now end stop at page.old }
    ensures { PassesText note.now end stop at page.old result page.new }
{
    let text = &note[..end];
    let plain = &note[..stop];
    let mut i = escaping::put_run(page, plain, at, b'\\');
    while i < stop {
        let j = escaping::past_backslash(text, i);
        escaping::put_escaped(page, text[j]);
        i = escaping::put_run(page, plain, j + 1, b'\\');
    }
    i
}

// What is next in a paragraph that ends at `end`: what a row calls for, or text up to where a row does.
fn write_next(source: &Source, end: usize, pass: Pass, page: &mut Page) -> Pass
    requires ready { Ready source.now }
    requires stands { Stands (texts_of source.now) end pass page.old }
    ensures { Goes (texts_of source.now) end pass page.old result page.new }
{
    let at = pass.at;
    if let Some(start) = cursor::start_of(source.starts[at]) {
        let row = span::span_at(source.spans, start.row);
        return Pass {
            at: write_start(source, end, row, start.tags, at, page),
            close: pass.close,
        };
    }
    let close = cursor::next_closing(source.spans, source.count, pass.close, at);
    let closes_at = cursor::closing_place(source.spans, source.count, close, end);
    if closes_at == at {
        let row = span::span_at(source.spans, close);
        let tags = cursor::has_tags(source.starts[row.whole.start]);
        return Pass {
            at: write_close(source, end, row, tags, at, page),
            close,
        };
    }
    let stop = cursor::next_start(&source.starts[..closes_at], at);
    Pass {
        at: write_text(source.note, end, stop, at, page),
        close,
    }
}

// A paragraph that starts where the pass stands and ends at `end`.
fn write_paragraph(source: &Source, end: usize, pass: Pass, page: &mut Page) -> Pass
    requires ready { Ready source.now }
    requires starts { Starts (texts_of source.now) end pass page.old }
    ensures { Ends (texts_of source.now) end pass page.old result page.new }
{
    let mut p = pass;
    page.put(b"<p>");
    while p.at < end {
        p = write_next(source, end, p, page);
    }
    page.put(b"</p>\n");
    p
}

// The paragraphs, on a page where nothing is written yet.
fn write_paragraphs(source: &Source, paragraphs: &Paragraphs, page: &mut Page)
    requires ready { Ready source.now }
    requires same_note { paragraphs.now.note.now ≡ source.now.note.now }
    requires untouched { page.old.size ≡ 0 }
    ensures { Grows page.old (page_of (texts_of source.now)) page.new }
{
    let mut p = Pass { at: 0, close: 0 };
    // `k` is counted by hand: `Paragraphs` is no iterator.
    let mut k = 0;
    let mut next = 0;
    while let Some(paragraph) = paragraphs.next(k, next) {
        p.at = paragraph.start;
        p = write_paragraph(source, paragraph.end, p, page);
        k += 1;
        next = paragraph.next;
    }
}

// The page of a note whose paragraphs are these: writes what fits, and returns the whole length.
pub fn write_page(source: &Source, paragraphs: &Paragraphs, page: &mut [u8]) -> usize
    requires ready { Ready source.now }
    requires same_note { paragraphs.now.note.now ≡ source.now.note.now }
    ensures { Writes page.old 0 (page_of (texts source.now.note.now source.now.sheet.now)) page.new result }
{
    let mut written = Page::new(page);
    write_paragraphs(source, paragraphs, &mut written);
    written.size
}
