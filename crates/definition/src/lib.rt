// Link reference definitions of a note, and its paragraphs.
#![tactic(auto)]

ghost use Rattle.std.specs.Prelude.{◌≡◌};
ghost use Rattle.definition.specs.Definition.{space};
ghost use Rattle.definition.specs.Reading.{line_after, title_after, ending_after, after_label, definition_at, paragraph_end};

use row::{Definition, Range};
use scan::Class;
use target::Part;

// A definition and the place after its line.
#[derive(Clone, Copy)]
pub struct Entry {
    pub definition: Definition,
    pub next: usize,
}

// The bytes of an indent.
struct Indent;

impl Class<u8> for Indent {
    ghost has = { λ _ b. space b };

    fn holds(&self, b: u8) -> bool {
        b == 32
    }
}

// Past spaces and tabs and the end of their line, where one follows them.
#[tactic(auto, unfolding(crate::specs::Reading::line_after))]
fn line_after(s: &[u8], at: usize) -> Option<usize>
    ensures { result ≡ line_after s.now at }
{
    let i = block::past_padding(s, at);
    if s.len() <= i {
        return Some(i);
    }
    if s[i] == 10 {
        return Some(i + 1);
    }
    None
}

// The title that follows a destination, with at least one byte of space before it, and the place after its line.
#[tactic(auto, unfolding(crate::specs::Reading::title_after))]
fn title_after(s: &[u8], at: usize) -> Option<Part>
    ensures { result ≡ title_after s.now at }
{
    let i = target::space_end(s, at);
    if i == at {
        return None;
    }
    let Part { start, end, next } = target::title(s, i)?;
    let next = line_after(s, next)?;
    Some(Part { start, end, next })
}

// What follows a destination: its title or 0 and 0, and the place after the definition.
#[tactic(auto, unfolding(crate::specs::Reading::ending_after))]
fn ending_after(s: &[u8], at: usize) -> Option<Part>
    ensures { result ≡ ending_after s.now at }
{
    if let Some(title) = title_after(s, at) {
        return Some(title);
    }
    let next = line_after(s, at)?;
    Some(Part {
        start: 0,
        end: 0,
        next,
    })
}

// The rest of a definition whose label starts at `start` and has its closing bracket at `end`.
#[tactic(auto, unfolding(crate::specs::Reading::after_label))]
fn after_label(s: &[u8], start: usize, end: usize) -> Option<Entry>
    ensures { result ≡ after_label s.now start end }
{
    if s.len() <= end {
        return None;
    }
    if scan::peek(s, end + 1) != 58 {
        return None;
    }
    let destination = target::destination(s, target::space_end(s, end + 2))?;
    let title = ending_after(s, destination.next)?;
    let definition = Definition::new(
        Range::new(start, end),
        Range::new(destination.start, destination.end),
        Range::new(title.start, title.end),
    );
    Some(Entry {
        definition,
        next: title.next,
    })
}

// The definition that starts at `at`, where `s` ends with the block.
#[tactic(auto, unfolding(crate::specs::Reading::definition_at, crate::specs::Reading::after_indent))]
pub fn definition(s: &[u8], at: usize) -> Option<Entry>
    ensures { result ≡ definition_at s.now at }
{
    let i = scan::past(s, at, &Indent);
    if i - at > 3 {
        return None;
    }
    if scan::peek(s, i) != 91 {
        return None;
    }
    let start = i + 1;
    let end = label::label_end(s, start)?;
    after_label(s, start, end)
}

// Where a paragraph that goes on to the end of `s` ends: before a final LF.
#[tactic(auto, unfolding(crate::specs::Reading::paragraph_end))]
pub fn paragraph_end(s: &[u8]) -> usize
    ensures { result ≡ paragraph_end s.now }
{
    let n = s.len();
    if n == 0 {
        return 0;
    }
    if s[n - 1] == 10 {
        return n - 1;
    }
    n
}
