// The entries for callers in C and Rust. A slice is a pointer and a length there, the answer a pointer to its numbers (include/notice.h).
#![tactic(auto)]

ghost use Rattle.texts.specs.Texts.{texts};
ghost use Rattle.notice_c.specs.Read.{ReadPromise};
ghost use Rattle.notice_c.specs.Render.{RenderPromise};
ghost use Rattle.notice_c.specs.Resolve.{ResolvePromise, start_by};
ghost use Rattle.notice_c.specs.SameLabel.{SameLabelPromise};
ghost use Rattle.std.specs.Prelude.{◌≡◌};

use notice::Counts;
use rendering::Rendered;

// Reads a note with the sheet beside it, for a release where `release` is not 0: fills the two tables that are lent, or refuses. The answer's number is returned; its value, the counts
// of definitions and spans and the text that it is about are stored.
#[unsafe(no_mangle)]
pub extern "C" fn notice_read<'a>(
    note: &'a [u8],
    sheet: &'a [u8],
    release: u32,
    definitions: &mut [u32],
    spans: &mut [u32],
    answer: &mut [u64; 4],
) -> u32
    ensures { ReadPromise release (texts note.now sheet.now) definitions.old spans.old result (texts note.exit.now sheet.exit.now) definitions.new spans.new answer.new }
{
    match notice::read(note, sheet, release != 0, definitions, spans) {
        Ok(Counts { definitions, spans }) => {
            *answer = [0, definitions as u64, spans as u64, 0];
            0
        }
        Err(refusal) => {
            *answer = [refusal.value() as u64, 0, 0, refusal.text() as u64];
            refusal.number()
        }
    }
}

// Writes a note's page, with the sheet beside it, for a release where `release` is not 0: fills the two tables and the page buffer that are lent, or refuses. The answer's number is
// returned; its value, the counts of definitions and spans, the HTML's length and the text that it is about are stored.
#[unsafe(no_mangle)]
pub extern "C" fn notice_render<'a>(
    note: &'a [u8],
    sheet: &'a [u8],
    release: u32,
    definitions: &mut [u32],
    spans: &mut [u32],
    page: &mut [u8],
    answer: &mut [u64; 5],
) -> u32
    ensures { RenderPromise release (texts note.now sheet.now) definitions.old spans.old page.old result (texts note.exit.now sheet.exit.now) definitions.new spans.new page.new answer.new }
{
    match rendering::render(note, sheet, release != 0, definitions, spans, page) {
        Ok(Rendered { counts, bytes }) => {
            let Counts { definitions, spans } = counts;
            *answer = [0, definitions as u64, spans as u64, bytes as u64, 0];
            0
        }
        Err(refusal) => {
            *answer = [refusal.value() as u64, 0, 0, 0, refusal.text() as u64];
            refusal.number()
        }
    }
}

// Where the part starts that the enquiry hands back beside its answer's number and value; 0 on a refusal.
fn part_start(number: u64, value: u64) -> u64
    ensures { result ≡ start_by number value }
{
    if number == 0 { value } else { 0 }
}

// The destination that the note and the sheet give to a label. The answer's number is returned; its value, the destination's start
// and end, and the text in which they lie are stored.
#[unsafe(no_mangle)]
pub extern "C" fn notice_resolve<'a>(
    note: &'a [u8],
    sheet: &'a [u8],
    label: &[u8],
    answer: &mut [u64; 4],
) -> u32
    ensures { ResolvePromise (texts note.now sheet.now) label.now result (texts note.exit.now sheet.exit.now) label.exit.now answer.new }
{
    let mut numbers = [0; 3];
    let part = enquiry::resolve(note, sheet, label, &mut numbers);
    let [number, value, text] = numbers;
    let start = part_start(number, value);
    let end = start + part.len() as u64;
    *answer = [value, start, end, text];
    number as u32
}

// Whether two labels are equal, each given without its brackets: 1 where they are, and else 0.
#[unsafe(no_mangle)]
pub extern "C" fn notice_same_label(a: &[u8], b: &[u8]) -> u32
    ensures { SameLabelPromise a.now b.now result a.exit.now b.exit.now }
{
    u32::from(alike::same_label(a, b))
}
