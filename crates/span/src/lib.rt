// The span table: rows of eleven 32-bit numbers in a lent slice, which C lends and reads.
#![tactic(auto)]

ghost use Rattle.std.specs.Prelude.{◌≡◌, ◌+◌, ◌<◌, ◌^◌, length, eqb, leb};
ghost use Rattle.row.specs.Row.{SmallPart};
ghost use Rattle.span.specs.Row.{code_span_kind, inline_image_kind, code_span_row, inline_row, reference_row, full_row, collapsed_row, shortcut_row, inline_image_row, full_image_row, collapsed_image_row, shortcut_image_row, Small, whole_rows, stored_half, stored_on};
ghost use Rattle.span.specs.Reading.{span_at};

use row::Range;

// A code span, a link or an image: the number of its kind, from where to where it runs, the text between its backtick strings or brackets,
// the number of its definition (from 1; 0 if none), and its target. The numbers are those that C reads in the row (`numbers_on`).
#[derive(Clone, Copy)]
pub struct Span {
    pub kind: u32,
    pub whole: Range,
    pub text: Range,
    pub definition: usize,
    pub destination: Range,
    pub title: Range,
}

impl Span {
    // The numbers of a row.
    pub const WIDTH: usize = 11;

    // No enum: rows hold the numbers that C reads, any may stand in a table read back, and the project asks for constants with a constructor for each kind.
    pub const CODE_SPAN: u32 = 1;

    pub const INLINE: u32 = 2;

    pub const FULL: u32 = 3;

    pub const COLLAPSED: u32 = 4;

    pub const SHORTCUT: u32 = 5;

    pub const INLINE_IMAGE: u32 = 6;

    pub const FULL_IMAGE: u32 = 7;

    pub const COLLAPSED_IMAGE: u32 = 8;

    pub const SHORTCUT_IMAGE: u32 = 9;

    pub fn code_span(whole: Range, text: Range) -> Span
        ensures { result ≡ code_span_row whole text }
    {
        Span {
            kind: Span::CODE_SPAN,
            whole,
            text,
            definition: 0,
            destination: Range::absent(),
            title: Range::absent(),
        }
    }

    pub fn inline(whole: Range, text: Range, destination: Range, title: Range) -> Span
        ensures { result ≡ inline_row whole text destination title }
    {
        Span {
            kind: Span::INLINE,
            whole,
            text,
            definition: 0,
            destination,
            title,
        }
    }

    pub fn inline_image(whole: Range, text: Range, destination: Range, title: Range) -> Span
        ensures { result ≡ inline_image_row whole text destination title }
    {
        Span {
            kind: Span::INLINE_IMAGE,
            whole,
            text,
            definition: 0,
            destination,
            title,
        }
    }

    // A reference to the definition in row `k` of the definition table, with that definition's destination and title.
    fn reference(
        kind: u32,
        whole: Range,
        text: Range,
        k: usize,
        destination: Range,
        title: Range,
    ) -> Span
        requires { k + 1 < 2 ^ 32 }
        ensures { result ≡ reference_row kind whole text k destination title }
    {
        Span {
            kind,
            whole,
            text,
            definition: k + 1,
            destination,
            title,
        }
    }

    pub fn full(whole: Range, text: Range, k: usize, destination: Range, title: Range) -> Span
        requires { k + 1 < 2 ^ 32 }
        ensures { result ≡ full_row whole text k destination title }
    {
        Span::reference(Span::FULL, whole, text, k, destination, title)
    }

    pub fn collapsed(whole: Range, text: Range, k: usize, destination: Range, title: Range) -> Span
        requires { k + 1 < 2 ^ 32 }
        ensures { result ≡ collapsed_row whole text k destination title }
    {
        Span::reference(Span::COLLAPSED, whole, text, k, destination, title)
    }

    pub fn shortcut(whole: Range, text: Range, k: usize, destination: Range, title: Range) -> Span
        requires { k + 1 < 2 ^ 32 }
        ensures { result ≡ shortcut_row whole text k destination title }
    {
        Span::reference(Span::SHORTCUT, whole, text, k, destination, title)
    }

    pub fn full_image(whole: Range, text: Range, k: usize, destination: Range, title: Range) -> Span
        requires { k + 1 < 2 ^ 32 }
        ensures { result ≡ full_image_row whole text k destination title }
    {
        Span::reference(Span::FULL_IMAGE, whole, text, k, destination, title)
    }

    pub fn collapsed_image(
        whole: Range,
        text: Range,
        k: usize,
        destination: Range,
        title: Range,
    ) -> Span
        requires { k + 1 < 2 ^ 32 }
        ensures { result ≡ collapsed_image_row whole text k destination title }
    {
        Span::reference(Span::COLLAPSED_IMAGE, whole, text, k, destination, title)
    }

    pub fn shortcut_image(
        whole: Range,
        text: Range,
        k: usize,
        destination: Range,
        title: Range,
    ) -> Span
        requires { k + 1 < 2 ^ 32 }
        ensures { result ≡ shortcut_image_row whole text k destination title }
    {
        Span::reference(Span::SHORTCUT_IMAGE, whole, text, k, destination, title)
    }

    pub fn is_code_span(&self) -> bool
        ensures { result ≡ eqb self.now.kind code_span_kind }
    {
        self.kind == Span::CODE_SPAN
    }

    // An image's number is none below the first of images.
    pub fn is_image(&self) -> bool
        ensures { result ≡ leb inline_image_kind self.now.kind }
    {
        Span::INLINE_IMAGE <= self.kind
    }
}

// The whole rows that the table has room for.
pub fn whole_rows(table: &[u32]) -> usize
    ensures { result ≡ whole_rows table.now }
{
    table.len() / Span::WIDTH
}

// Stores a number and two parts after it, from `at` on: half of what stands before the line.
fn store_half(table: &mut [u32], at: usize, n: u32, a: Range, b: Range)
    requires at_in_bounds { at + 4 < length table.old }
    requires small_part { SmallPart a }
    requires small_part_2 { SmallPart b }
    ensures { table.new ≡ stored_half table.old at n a b }
{
    table[at] = n;
    row::store_range(table, at + 1, a);
    row::store_range(table, at + 3, b);
}

// Stores the row of a span that starts on this line as row `k` if it fits, and else leaves the table as it was.
pub fn store(table: &mut [u32], k: usize, s: Span, line: usize)
    requires small { Small s }
    requires line_bound { line < 2 ^ 32 }
    ensures { table.new ≡ stored_on line table.old k s }
{
    if k < whole_rows(table) {
        let at = k * Span::WIDTH;
        store_half(table, at, s.kind, s.whole, s.text);
        store_half(table, at + 5, s.definition as u32, s.destination, s.title);
        table[at + 10] = line as u32;
    }
}

// The span whose row is row `k`.
pub fn span_at(table: &[u32], k: usize) -> Span
    requires { k < whole_rows table.now }
    ensures { result ≡ span_at table.now k }
{
    let at = k * Span::WIDTH;
    let kind = table[at];
    let whole = row::range_at(table, at + 1);
    let text = row::range_at(table, at + 3);
    let definition = table[at + 5] as usize;
    let destination = row::range_at(table, at + 6);
    let title = row::range_at(table, at + 8);
    Span {
        kind,
        whole,
        text,
        definition,
        destination,
        title,
    }
}
