// The row of a link or an image.
#![tactic(auto)]

ghost use Rattle.std.specs.Prelude.{◌≡◌, ◌+◌, ◌<◌, ◌^◌};
ghost use Rattle.row.specs.Row.{SmallPart};
ghost use Rattle.row.specs.Reading.{definitions_from};
ghost use Rattle.span.specs.Row.{Small};
ghost use Rattle.inline.specs.ReadingTails.{moved};
ghost use Rattle.inline.specs.Rows.{from_note?, inline_row_of, full_row_of, collapsed_row_of, shortcut_row_of};
ghost use Rattle.tail.specs.Ending.{shown, Sized};
ghost use Rattle.link.specs.Reading.{sort_by, text_from, pair_row, Names};

use row::{Definition, Range};
use span::Span;
use tail::{ReadTail, Way};

// The part of a tail that starts at place `at` of the paragraph, which starts at `start`.
fn part_in_note(start: usize, at: usize, part: Option<Range>) -> Range
    requires { SmallPart (from_note? start (moved at part)) }
    ensures { result ≡ from_note? start (moved at part) }
{
    match part {
        Some(r) => Range::new(start + (at + r.start), start + (at + r.end)),
        None => Range::absent(),
    }
}

// Where the text of a pair starts that opens at `opening`: after `[`, or after `![`.
pub fn text_from(image: bool, opening: usize) -> usize
    requires { opening + 2 < 2 ^ 64 }
    ensures { result ≡ text_from image opening }
{
    if image {
        return opening + 2;
    }
    opening + 1
}

// The row of an inline link, or of an inline image.
fn inline_row(image: bool, whole: Range, text: Range, destination: Range, title: Range) -> Span
    ensures { result ≡ inline_row_of (sort_by image) whole text destination title }
{
    if image {
        return Span::inline_image(whole, text, destination, title);
    }
    Span::inline(whole, text, destination, title)
}

// That of a full reference to the definition in row `k`.
fn full_row(image: bool, whole: Range, text: Range, k: usize, d: Definition) -> Span
    requires { k + 1 < 2 ^ 32 }
    ensures { result ≡ full_row_of (sort_by image) whole text k d.destination d.title }
{
    if image {
        return Span::full_image(whole, text, k, d.destination, d.title);
    }
    Span::full(whole, text, k, d.destination, d.title)
}

// That of a collapsed one.
fn collapsed_row(image: bool, whole: Range, text: Range, k: usize, d: Definition) -> Span
    requires { k + 1 < 2 ^ 32 }
    ensures { result ≡ collapsed_row_of (sort_by image) whole text k d.destination d.title }
{
    if image {
        return Span::collapsed_image(whole, text, k, d.destination, d.title);
    }
    Span::collapsed(whole, text, k, d.destination, d.title)
}

// That of a shortcut.
fn shortcut_row(image: bool, whole: Range, text: Range, k: usize, d: Definition) -> Span
    requires { k + 1 < 2 ^ 32 }
    ensures { result ≡ shortcut_row_of (sort_by image) whole text k d.destination d.title }
{
    if image {
        return Span::shortcut_image(whole, text, k, d.destination, d.title);
    }
    Span::shortcut(whole, text, k, d.destination, d.title)
}

// The row of the link, or of the image, whose brackets stand at `opening` and `closing` of the paragraph, which starts at `start`. An
// image opens with the `!`.
pub fn pair_row(
    start: usize,
    image: bool,
    opening: usize,
    closing: usize,
    t: ReadTail,
    definitions: &[u32],
    count: usize,
) -> Span
    requires names { Names count definitions.now t.way }
    requires sized { Sized t }
    requires small { Small (pair_row start (definitions_from definitions.now 0 count) image opening closing (shown (closing + 1) t)) }
    ensures { result ≡ pair_row start (definitions_from definitions.now 0 count) image opening closing (shown (closing + 1) t) }
{
    let whole = Range::new(start + opening, start + (closing + 1 + t.length));
    let text = Range::new(start + text_from(image, opening), start + closing);
    match t.way {
        Way::Parts(destination, title) => inline_row(
            image,
            whole,
            text,
            part_in_note(start, closing + 1, destination),
            part_in_note(start, closing + 1, title),
        ),
        Way::Full(k) => full_row(image, whole, text, k, row::definition_at(definitions, k)),
        Way::Collapsed(k) => collapsed_row(
            image,
            whole,
            text,
            k,
            row::definition_at(definitions, k),
        ),
        Way::Shortcut(k) => shortcut_row(image, whole, text, k, row::definition_at(definitions, k)),
    }
}
