// A note's definitions one after the other, and its paragraphs one after the other.
#![tactic(auto)]

ghost use Rattle.std.specs.Prelude.{◌≡◌, ◌+◌, ◌*◌, ◌≤◌, ◌<◌, ◌^◌, set, Some};
ghost use Rattle.definition.specs.Reading.{definitions_from};
ghost use Rattle.walk.specs.Reading.{from, remembered};
ghost use Rattle.walk.specs.Promise.{IsBlock, Standing, LineEnds, IsNext, IsParagraph, IsItem, Remembers, Onward};

use row::Definition;

// The numbers of the list of a note's paragraphs: a start and an end for each. Each takes two bytes of the note at the least, but for the last.
pub const LIST: usize = text::NOTE_LIMIT + 1;

// The start of a block and its end.
#[derive(Clone, Copy)]
struct Block {
    start: usize,
    end: usize,
}

// Reading stands at place `at` of the block that ends at place `end`; between blocks the two are equal.
#[derive(Clone, Copy)]
pub struct Cursor {
    pub at: usize,
    pub end: usize,
}

// A definition and where reading stands after it.
#[derive(Clone, Copy)]
pub struct Next {
    pub definition: Definition,
    pub after: Cursor,
}

// The start of a paragraph, its end, and the end of its block.
#[derive(Clone, Copy)]
pub struct Paragraph {
    pub start: usize,
    pub end: usize,
    pub next: usize,
}

// A definition, or a paragraph's start and end, with where reading stands after it.
#[derive(Clone, Copy)]
pub enum Item {
    Definition(Definition, Cursor),
    Paragraph(usize, usize, Cursor),
}

// The list of the paragraphs of a note: a start and an end for each of them, `count` in all.
#[derive(Clone, Copy)]
pub struct Paragraphs<'a> {
    pub note: &'a [u8],
    pub list: &'a [u16],
    pub count: usize,
    ghost remembers: { Remembers note.now list.now count },
}

// The first block from `at` on, where a line starts.
#[tactic(auto, using(crate::proofs::Steps::no_block, crate::proofs::Steps::past_blank, crate::proofs::Steps::line_less))]
fn next_block(note: &[u8], at: usize) -> Option<Block>
    ensures { IsBlock note.now at result }
{
    let mut i = at;
    while i < note.len() {
        if !block::blank_line(note, i) {
            return Some(Block {
                start: i,
                end: block::block_end(note, i),
            });
        }
        i = block::line_end(note, i);
    }
    None
}

// The first definition from `c` on.
#[tactic(auto, using(crate::proofs::Steps::definition_here, crate::proofs::Steps::no_definition, crate::proofs::Steps::next_block))]
pub fn next_definition(note: &[u8], c: Cursor) -> Option<Next>
    requires { Standing note.now c }
    ensures { IsNext note.now c result }
{
    let Cursor { mut at, mut end } = c;
    loop {
        if let Some(entry) = definition::definition(&note[..end], at) {
            return Some(Next {
                definition: entry.definition,
                after: Cursor {
                    at: entry.next,
                    end,
                },
            });
        }
        let block = next_block(note, end)?;
        at = block.start;
        end = block.end;
    }
}

// Past the definitions that a block starts with at `at`, where `s` ends with the block.
#[tactic(auto, using(crate::proofs::Steps::rest_less, crate::proofs::Steps::rest_stop, crate::proofs::Steps::rest_on))]
fn block_rest(s: &[u8], at: usize) -> usize
    ensures { result ≡ (definitions_from s.now at).after }
{
    let mut i = at;
    while let Some(entry) = definition::definition(s, i) {
        i = entry.next;
    }
    i
}

// The first paragraph from `at` on, where a line starts.
#[tactic(auto, using(crate::proofs::Steps::no_paragraph, crate::proofs::Steps::all_taken, crate::proofs::Steps::paragraph_here))]
pub fn next_paragraph(note: &[u8], at: usize) -> Option<Paragraph>
    ensures { IsParagraph note.now at result }
{
    let mut i = at;
    loop {
        let block = next_block(note, i)?;
        let s = &note[..block.end];
        let start = block_rest(s, block.start);
        if start < block.end {
            return Some(Paragraph {
                start,
                end: definition::paragraph_end(s),
                next: block.end,
            });
        }
        i = block.end;
    }
}

// The definition that reading stands at inside a block, or the paragraph that the block leaves.
fn item_here(note: &[u8], c: Cursor) -> Item
    requires standing { Standing note.now c }
    requires line_ends { LineEnds note.now c.end }
    requires at_lt_end { c.at < c.end }
    ensures { IsItem note.now c (Some result) }
{
    let end = c.end;
    let block = &note[..end];
    if let Some(entry) = definition::definition(block, c.at) {
        return Item::Definition(
            entry.definition,
            Cursor {
                at: entry.next,
                end,
            },
        );
    }
    Item::Paragraph(
        c.at,
        definition::paragraph_end(block),
        Cursor { at: end, end },
    )
}

// The first definition or paragraph from `c` on.
#[tactic(auto, using(crate::proofs::Items::no_item, crate::proofs::Items::found_stands, crate::proofs::Items::found_item))]
pub fn next_item(note: &[u8], c: Cursor) -> Option<Item>
    requires standing { Standing note.now c }
    requires line_ends { LineEnds note.now c.end }
    ensures { IsItem note.now c result }
{
    if c.at < c.end {
        return Some(item_here(note, c));
    }
    let block = next_block(note, c.end)?;
    let start = Cursor {
        at: block.start,
        end: block.end,
    };
    Some(item_here(note, start))
}

// Stores a number of the list at `i`, if there is room.
fn put(list: &mut [u16], i: usize, x: usize)
    requires { x < 2 ^ 16 }
    ensures { list.new ≡ set list.old i x }
{
    if i < list.len() {
        list[i] = x as u16;
    }
}

// Remembers the start and the end of paragraph `k`, if there is room.
pub fn remember(list: &mut [u16], k: usize, start: usize, end: usize)
    requires k_bound { k < 2 ^ 32 }
    requires start_bound { start < 2 ^ 16 }
    requires end_bound { end < 2 ^ 16 }
    ensures { list.new ≡ remembered list.old k start end }
{
    put(list, 2 * k, start);
    put(list, 2 * k + 1, end);
}

impl<'a> Paragraphs<'a> {
    // The paragraph from `at` on, which is paragraph `k`.
    #[tactic(auto, using(crate::proofs::Listing::listed_end, crate::proofs::Listing::listed_on, crate::proofs::Listing::listed_last))]
    pub fn next(&self, k: usize, at: usize) -> Option<Paragraph>
        requires k_bound { k ≤ self.now.count }
        requires at_value { at ≡ from self.now.note.now self.now.list.now k }
        ensures read { IsParagraph self.now.note.now at result }
        ensures onward { Onward self.now.note.now self.now.list.now self.now.count k result }
    {
        if k == self.count {
            return None;
        }
        let start = self.list[2 * k] as usize;
        let end = self.list[2 * k + 1] as usize;
        let next = if end < self.note.len() { end + 1 } else { end };
        Some(Paragraph { start, end, next })
    }
}
