// The tail of a link: what follows the closing bracket of a pair, read on its own.
#![tactic(auto)]

ghost use Rattle.std.specs.Prelude.{◌≡◌, ℕ};
ghost use Rattle.parens.specs.Unclosed.{Prepared};
ghost use Rattle.row.specs.Reading.{first_match};
ghost use Rattle.index.specs.Rows.{ReadyFor};
ghost use Rattle.inline.specs.ReadingTails.{closed_at, after_destination, inline_of, empty_after, full_by, text_tail, reference_of, tail_of};
ghost use Rattle.tail.specs.Ending.{all_labels, shown?, Sized?, label_length};

use inline::InlineParts;
use row::{Definitions, Range};

// What a tail gives its link. A definition is named by its row, from 0.
#[derive(Clone, Copy)]
pub enum Way {
    // Where the destination and the title stand in the tail.
    Parts(Option<Range>, Option<Range>),
    Full(usize),
    Collapsed(usize),
    Shortcut(usize),
}

// A tail as it is read: how many bytes it takes up, and what it gives.
#[derive(Clone, Copy)]
pub struct ReadTail {
    pub length: usize,
    pub way: Way,
}

// The tail whose `)` stands at `h`.
fn closed_at(
    rest: &[u8],
    h: usize,
    destination: Option<Range>,
    title: Option<Range>,
) -> Option<InlineParts>
    ensures { result ≡ closed_at rest.now h destination title }
{
    if scan::peek(rest, h) != 41 {
        return None;
    }
    Some(InlineParts {
        size: h + 1,
        destination,
        title,
    })
}

// The tail whose destination ends before `n`, with space up to `h`.
fn after_destination(rest: &[u8], n: usize, h: usize, destination: Range) -> Option<InlineParts>
    ensures { result ≡ after_destination rest.now n h destination }
{
    if h == n {
        return closed_at(rest, h, Some(destination), None);
    }
    let Some(title) = target::title(rest, h) else {
        return closed_at(rest, h, Some(destination), None);
    };
    closed_at(
        rest,
        target::space_end(rest, title.next),
        Some(destination),
        Some(Range::new(title.start, title.end)),
    )
}

// The tail of an inline link that starts `rest`. The marks are those of the parentheses of `rest` that nothing closes.
fn inline_tail(rest: &[u8], marks: &mut [bool]) -> Option<InlineParts>
    requires { Prepared rest.now 0 marks.old }
    ensures value { result ≡ inline_of rest.now }
    ensures prepared { Prepared rest.now 0 marks.new }
{
    if scan::peek(rest, 0) != 40 {
        return None;
    }
    let g = target::space_end(rest, 1);
    let Some(d) = parens::destination(rest, g, marks) else {
        return closed_at(rest, target::space_end(rest, g), None, None);
    };
    after_destination(
        rest,
        d.next,
        target::space_end(rest, d.next),
        Range::new(d.start, d.end),
    )
}

// The length of the label that starts `rest`, with its brackets.
fn label_after(rest: &[u8]) -> Option<usize>
    ensures { result ≡ label_length rest.now }
{
    if scan::peek(rest, 0) != 91 {
        return None;
    }
    Some(label::label_end(rest, 1)? + 1)
}

// Whether `[]` starts `rest`.
fn empty_after(rest: &[u8]) -> bool
    ensures { result ≡ empty_after rest.now }
{
    (scan::peek(rest, 0) == 91) & (scan::peek(rest, 1) == 93)
}

// A full reference of `length` bytes, if its label is defined.
fn full_reference<'a>(
    label: &[u8],
    length: usize,
    definitions: &Definitions<'a>,
    index: &mut [u32],
) -> Option<ReadTail>
    requires ready { ReadyFor definitions.now index.old }
    ensures by_index { (at : ℕ) → shown? at result ≡ full_by length (first_match (all_labels definitions.now) label.now) }
    ensures sized { Sized? result }
    ensures ready_2 { ReadyFor definitions.now index.new }
{
    let k = finding::find(definitions, index, label)?; // None: no tail at all, whatever the text is.
    Some(ReadTail {
        length,
        way: Way::Full(k),
    })
}

// A reference by its text, if that is a label that is defined.
fn text_reference<'a>(
    text: &[u8],
    rest: &[u8],
    definitions: &Definitions<'a>,
    index: &mut [u32],
) -> Option<ReadTail>
    requires ready { ReadyFor definitions.now index.old }
    ensures by_index { (at : ℕ) → shown? at result ≡ text_tail (all_labels definitions.now) text.now rest.now }
    ensures sized { Sized? result }
    ensures ready_2 { ReadyFor definitions.now index.new }
{
    if !label::is_label(text) {
        return None;
    }
    let k = finding::find(definitions, index, text)?;
    if empty_after(rest) {
        return Some(ReadTail {
            length: 2,
            way: Way::Collapsed(k),
        });
    }
    Some(ReadTail {
        length: 0,
        way: Way::Shortcut(k),
    })
}

// A reference: by the label that follows, or else by its text.
fn reference<'a>(
    text: &[u8],
    rest: &[u8],
    definitions: &Definitions<'a>,
    index: &mut [u32],
) -> Option<ReadTail>
    requires ready { ReadyFor definitions.now index.old }
    ensures by_index { (at : ℕ) → shown? at result ≡ reference_of (all_labels definitions.now) text.now rest.now }
    ensures sized { Sized? result }
    ensures ready_2 { ReadyFor definitions.now index.new }
{
    match label_after(rest) {
        Some(n) => full_reference(&rest[1..n - 1], n, definitions, index),
        None => text_reference(text, rest, definitions, index),
    }
}

// The tail of a pair of brackets: `text` stands between them, and `rest` is the part of the paragraph that starts after the closing one.
// `index` is lent for an index of the definitions.
pub fn tail_after<'a>(
    text: &[u8],
    rest: &[u8],
    definitions: &Definitions<'a>,
    index: &mut [u32],
    marks: &mut [bool],
) -> Option<ReadTail>
    requires ready { ReadyFor definitions.now index.old }
    requires prepared { Prepared rest.now 0 marks.old }
    ensures by_index { (at : ℕ) → shown? at result ≡ tail_of (all_labels definitions.now) text.now rest.now at }
    ensures sized { Sized? result }
    ensures ready_2 { ReadyFor definitions.now index.new }
    ensures prepared_2 { Prepared rest.now 0 marks.new }
{
    match inline_tail(rest, marks) {
        Some(q) => Some(ReadTail {
            length: q.size,
            way: Way::Parts(q.destination, q.title),
        }),
        None => reference(text, rest, definitions, index),
    }
}
