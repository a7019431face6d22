// The reader of a notice, with a sheet of definitions beside it.
#![tactic(auto)]

ghost use Rattle.std.specs.Prelude.{◌≡◌, ◌≤◌, ◌<◌, length, IfOk};
ghost use Rattle.text.specs.Utf8.{note_limit};
ghost use Rattle.texts.specs.Texts.{texts};
ghost use Rattle.row.specs.Listing.{texts_of};
ghost use Rattle.span.specs.Row.{whole_rows};
ghost use Rattle.index.specs.Index.{Ready};
ghost use Rattle.note.specs.Reading.{span_rows, first_deep};
ghost use Rattle.walk.specs.Promise.{Remembers};
ghost use Rattle.paragraph.specs.Promise.{Lent};
ghost use Rattle.paragraphs.specs.Spans.{Defined};
ghost use Rattle.notice.specs.Answers.{refusal_number, refusal_value, refusal_text};
ghost use Rattle.notice.specs.declared.Refusal.TheVariants.{Deep as TooDeep};
ghost use Rattle.notice.specs.Reading.{of_fault, with_spans};
ghost use Rattle.notice.specs.Promise.{Promise};
ghost use Rattle.notice.specs.Spans.{with_count, SpansRead, JoinedRead, reading_in};

use paragraph::{Bracket, Deep};
use row::Definitions;
use texts::Fault;
use walk::Paragraphs;

// The reader's answer on success: the counts of definitions and spans.
#[derive(Clone, Copy)]
pub struct Counts {
    pub definitions: usize,
    pub spans: usize,
}

// A refusal with its value; 1 and 2 with the text that they are about before it.
#[derive(Clone, Copy)]
pub enum Refusal {
    Long(usize, usize),
    Bad(usize, usize),
    FewDefinitions(usize),
    Conflicting(usize),
    Deep(usize),
    FewSpans(usize),
}

impl Refusal {
    // Document 01's number of the refusal.
    pub fn number(self) -> u32
        ensures { result ≡ refusal_number self }
    {
        match self {
            Refusal::Long(_, _) => 1,
            Refusal::Bad(_, _) => 2,
            Refusal::FewDefinitions(_) => 3,
            Refusal::Conflicting(_) => 9,
            Refusal::Deep(_) => 4,
            Refusal::FewSpans(_) => 5,
        }
    }

    // What is returned with it.
    pub fn value(self) -> usize
        ensures { result ≡ refusal_value self }
    {
        match self {
            Refusal::Long(_, n)
            | Refusal::Bad(_, n)
            | Refusal::FewDefinitions(n)
            | Refusal::Conflicting(n)
            | Refusal::Deep(n)
            | Refusal::FewSpans(n) => n,
        }
    }

    // The text that it is about; 0 where it is about neither.
    pub fn text(self) -> usize
        ensures { result ≡ refusal_text self }
    {
        match self {
            Refusal::Long(x, _) | Refusal::Bad(x, _) => x,
            _ => 0,
        }
    }
}

impl From<Fault> for Refusal {
    ghost from_gives = { λ fault refusal. refusal ≡ of_fault fault };

    fn from(fault: Fault) -> Refusal {
        match fault {
            Fault::Long(x, n) => Refusal::Long(x, n),
            Fault::Bad(x, k) => Refusal::Bad(x, k),
        }
    }
}

impl From<Deep> for Refusal {
    ghost from_gives = { λ deep refusal. refusal ≡ TooDeep deep.place };

    fn from(deep: Deep) -> Refusal {
        Refusal::Deep(deep.place)
    }
}

// The reader's answer on success, and how many paragraphs it has listed.
#[derive(Clone, Copy)]
pub struct Listed {
    pub counts: Counts,
    pub paragraphs: usize,
}

// A note of at most so many bytes is short: less memory is made ready for it.
const SHORT: usize = 4096;

// The numbers of the list of a short note's paragraphs.
const SHORT_LIST: usize = SHORT + 1;

// A mark for each byte of the longest note, and one more; and for a short one.
const MARKS: usize = text::NOTE_LIMIT + 1;

const SHORT_MARKS: usize = SHORT + 1;

// So few definitions are looked up as quickly without an index; and so many are many.
const FEW: usize = 16;

const MANY: usize = 256;

// The numbers of an index for up to so many definitions, and of the largest.
const MANY_INDEX: usize = buckets::BASE + MANY;

const INDEX: usize = buckets::BASE + indexing::ROWS;

// Counts the spans, and refuses where there are more than `rows`.
fn count_spans<'a>(
    definitions: &Definitions<'a>,
    paragraphs: &Paragraphs<'a>,
    index: &mut [u32],
    rows: usize,
    stack: &mut [Bracket],
    runs: &mut Option<[u32; ticks::LENGTHS]>,
    marks: &mut [bool],
) -> Result<usize, Refusal>
    requires same_note { paragraphs.now.note.now ≡ definitions.now.note.now }
    requires defined { Defined (texts_of definitions.now) definitions.now.table.now definitions.now.count }
    requires ready { Ready (texts_of definitions.now) definitions.now.table.now definitions.now.count index.old }
    requires lent { Lent definitions.now.note.now stack.old marks.old }
    ensures counted { with_count definitions.now.count result ≡ with_spans definitions.now.count (first_deep (texts_of definitions.now)) (length (span_rows (texts_of definitions.now))) rows }
    ensures ready_2 { Ready (texts_of definitions.now) definitions.now.table.now definitions.now.count index.new }
{
    let none = &mut [];
    let walk = paragraphs::note_spans(definitions, index, paragraphs, none, stack, runs, marks)?;
    if rows < walk.row {
        return Err(Refusal::FewSpans(walk.row));
    }
    Ok(walk.row)
}

// The answer after refusals 1 to 3 and 9. Where all rows surely fit, they are stored in the pass that finds them, and else the spans are counted
// before.
fn answer_spans<'a>(
    definitions: &Definitions<'a>,
    paragraphs: &Paragraphs<'a>,
    index: &mut [u32],
    spans: &mut [u32],
    stack: &mut [Bracket],
    runs: &mut Option<[u32; ticks::LENGTHS]>,
    marks: &mut [bool],
) -> Result<Counts, Refusal>
    requires same_note { paragraphs.now.note.now ≡ definitions.now.note.now }
    requires defined { Defined (texts_of definitions.now) definitions.now.table.now definitions.now.count }
    requires ready { Ready (texts_of definitions.now) definitions.now.table.now definitions.now.count index.old }
    requires lent { Lent definitions.now.note.now stack.old marks.old }
    ensures { SpansRead (texts_of definitions.now) definitions.now.count spans.old result spans.new }
{
    let rows = span::whole_rows(spans);
    if !paragraphs::surely_fits(paragraphs, rows) {
        // Nothing is read again where there is no row to store.
        if count_spans(definitions, paragraphs, index, rows, stack, runs, marks)? == 0 {
            return Ok(Counts {
                definitions: definitions.count,
                spans: 0,
            });
        }
    }
    let walk = paragraphs::note_spans(definitions, index, paragraphs, spans, stack, runs, marks)?;
    Ok(Counts {
        definitions: definitions.count,
        spans: walk.row,
    })
}

// The same with what is lent to each paragraph, made once for a note: a mark for each of N bytes, and for the brackets and the runs.
fn with_marks<'a, const N: usize>(
    definitions: &Definitions<'a>,
    paragraphs: &Paragraphs<'a>,
    index: &mut [u32],
    spans: &mut [u32],
) -> Result<Counts, Refusal>
    requires same_note { paragraphs.now.note.now ≡ definitions.now.note.now }
    requires defined { Defined (texts_of definitions.now) definitions.now.table.now definitions.now.count }
    requires ready { Ready (texts_of definitions.now) definitions.now.table.now definitions.now.count index.old }
    requires note_in_bounds { length definitions.now.note.now < N }
    requires size { N ≤ 65536 }
    ensures { SpansRead (texts_of definitions.now) definitions.now.count spans.old result spans.new }
{
    let mut stack = [Bracket { at: 0, line: 0 }; paragraph::DEPTH_LIMIT];
    let mut runs = None;
    let mut marks = [false; N];
    answer_spans(
        definitions,
        paragraphs,
        index,
        spans,
        &mut stack,
        &mut runs,
        &mut marks,
    )
}

// The same with as many marks as the note asks for.
fn read_spans<'a>(
    definitions: &Definitions<'a>,
    paragraphs: &Paragraphs<'a>,
    index: &mut [u32],
    spans: &mut [u32],
) -> Result<Counts, Refusal>
    requires same_note { paragraphs.now.note.now ≡ definitions.now.note.now }
    requires defined { Defined (texts_of definitions.now) definitions.now.table.now definitions.now.count }
    requires ready { Ready (texts_of definitions.now) definitions.now.table.now definitions.now.count index.old }
    ensures { SpansRead (texts_of definitions.now) definitions.now.count spans.old result spans.new }
{
    if definitions.note.len() <= SHORT {
        with_marks::<SHORT_MARKS>(definitions, paragraphs, index, spans)
    } else {
        with_marks::<MARKS>(definitions, paragraphs, index, spans)
    }
}

// The answer after refusals 1 to 3, with an index of N numbers. It is empty: it is built when it pays. For a release, a definition that differs from an
// earlier one of equal label is refused.
fn with_index<'a, const N: usize>(
    definitions: &Definitions<'a>,
    paragraphs: &Paragraphs<'a>,
    release: bool,
    spans: &mut [u32],
) -> Result<Counts, Refusal>
    requires same_note { paragraphs.now.note.now ≡ definitions.now.note.now }
    requires defined { Defined (texts_of definitions.now) definitions.now.table.now definitions.now.count }
    requires size { N ≤ 65536 }
    ensures { JoinedRead release (texts_of definitions.now) definitions.now.count spans.old result spans.new }
{
    let mut index = [0u32; N];
    if release {
        if let Some(k) = repeats::first_conflict(definitions, &mut index) {
            return Err(Refusal::Conflicting(k + 1));
        }
    }
    read_spans(definitions, paragraphs, &mut index, spans)
}

// The same with as large an index as the definitions ask for. Out of line: a call that is refused before pays for no index.
#[inline(never)]
fn read_joined<'a>(
    definitions: &Definitions<'a>,
    paragraphs: &Paragraphs<'a>,
    release: bool,
    spans: &mut [u32],
) -> Result<Counts, Refusal>
    requires same_note { paragraphs.now.note.now ≡ definitions.now.note.now }
    requires defined { Defined (texts_of definitions.now) definitions.now.table.now definitions.now.count }
    ensures { JoinedRead release (texts_of definitions.now) definitions.now.count spans.old result spans.new }
{
    if definitions.count <= FEW {
        with_index::<1>(definitions, paragraphs, release, spans)
    } else if definitions.count <= MANY {
        with_index::<MANY_INDEX>(definitions, paragraphs, release, spans)
    } else {
        with_index::<INDEX>(definitions, paragraphs, release, spans)
    }
}

// Reads a note with the sheet beside it, for a release or not: fills the two tables that are lent, or refuses. The note's paragraphs are listed.
pub fn read_listed<'a>(
    note: &'a [u8],
    sheet: &'a [u8],
    release: bool,
    definitions: &mut [u32],
    spans: &mut [u32],
    list: &mut [u16],
) -> Result<Listed, Refusal>
    requires { length note.now ≤ note_limit → length note.now < length list.old }
    ensures promise { Promise release (texts note.now sheet.now) definitions.old spans.old (reading_in result) (texts note.exit.now sheet.exit.now) definitions.new spans.new }
    ensures remembers { IfOk result (λ listed. Remembers note.now list.new listed.paragraphs) }
{
    texts::check(note, sheet)?;
    // A definition takes three bytes at the least: its brackets and its colon. Where the rows are surely enough, they are stored in the pass that finds
    // them, and else the definitions are counted before.
    let rows = row::whole_rows(definitions);
    if rows < (note.len() + sheet.len()) / 3 {
        let needed = table::fill_joined(note, sheet, &mut [], list).definitions;
        if rows < needed {
            return Err(Refusal::FewDefinitions(needed));
        }
    }
    let filled = table::fill_joined(note, sheet, definitions, list);
    let listed = Paragraphs {
        note,
        list,
        count: filled.paragraphs,
    };
    let defined = Definitions {
        note,
        sheet,
        table: definitions,
        count: filled.definitions,
    };
    Ok(Listed {
        counts: read_joined(&defined, &listed, release, spans)?,
        paragraphs: filled.paragraphs,
    })
}

// The same with a list of N numbers.
fn with_list<'a, const N: usize>(
    note: &'a [u8],
    sheet: &'a [u8],
    release: bool,
    definitions: &mut [u32],
    spans: &mut [u32],
) -> Result<Counts, Refusal>
    requires note_in_bounds { length note.now ≤ note_limit → length note.now < N }
    requires size { N ≤ 65536 }
    ensures { Promise release (texts note.now sheet.now) definitions.old spans.old result (texts note.exit.now sheet.exit.now) definitions.new spans.new }
{
    let mut list = [0u16; N];
    Ok(read_listed(note, sheet, release, definitions, spans, &mut list)?.counts)
}

// The same with as long a list as the note asks for.
pub fn read<'a>(
    note: &'a [u8],
    sheet: &'a [u8],
    release: bool,
    definitions: &mut [u32],
    spans: &mut [u32],
) -> Result<Counts, Refusal>
    ensures { Promise release (texts note.now sheet.now) definitions.old spans.old result (texts note.exit.now sheet.exit.now) definitions.new spans.new }
{
    if note.len() <= SHORT {
        with_list::<SHORT_LIST>(note, sheet, release, definitions, spans)
    } else {
        with_list::<{ walk::LIST }>(note, sheet, release, definitions, spans)
    }
}
