// Runs the four entries on the cases of standard input (crate container). Prints the reader's answer with both tables whole, the page
// writer's with both tables and the page buffer whole, the enquiry's with the part that it hands back, and whether the note's bytes
// and the label's are equal as labels. What is lent and not written shows as the guard.
#![tactic(auto)]

ghost use Rattle.std.specs.Prelude.{◌≤◌, ◌≡◌, length, IfOk};
ghost use Rattle.container.specs.Container.{Lendable, Framed};

use container::Sizes;
use std::io;
use std::io::{Read, Write};

// What each lent number holds before a call: no text, place, kind, definition number or line.
const GUARD: u32 = 99999;

// What each lent byte of the page holds before the call: no byte of a good text or of a page.
const PAGE_GUARD: u8 = 13;

// The most that a case can lend: numbers of each table, bytes of the page.
const DEFINITION_ROOM: usize = 1200;

const SPAN_ROOM: usize = 3000;

const PAGE_ROOM: usize = 40960;

// The most that a case's note, sheet and label take, with their line ends.
const TEXT_ROOM: usize = 65536;

// As many of the same as an array holds. The `ensures` gives only the length, which lending it as a slice needs.
fn room<T: Copy, const N: usize>(item: T) -> [T; N]
    ensures { N ≡ length result }
{
    [item; N]
}

// Reads until `room` is full or the input ends, and answers how many bytes stand at its start.
fn read_full<R: Read>(from: &mut R, room: &mut [u8]) -> io::Result<usize>
    ensures { IfOk result (λ n. n ≤ length room.new) }
{
    let mut done = 0;
    while done < room.len() {
        let n = from.read(&mut room[done..])?;
        if n == 0 {
            break;
        }
        done += n;
    }
    Ok(done)
}

// Runs the reader on the note and the sheet with as much lent as `sizes` says, and prints what it answers and the tables that it leaves.
fn show_reading<'a, W: Write>(
    to: &mut W,
    note: &'a [u8],
    sheet: &'a [u8],
    sizes: Sizes,
) -> io::Result<()>
    requires { Lendable sizes }
{
    let mut definition_room = room::<u32, DEFINITION_ROOM>(GUARD);
    let mut span_room = room::<u32, SPAN_ROOM>(GUARD);
    let definitions = &mut definition_room[..sizes.definitions];
    let spans = &mut span_room[..sizes.spans];
    let answer = notice::read(note, sheet, sizes.release, definitions, spans);
    report::reading(to, answer)?;
    report::tables(to, definitions, spans)
}

// Runs the page writer likewise, and prints what it answers and the tables and the page that it leaves.
fn show_rendering<'a, W: Write>(
    to: &mut W,
    note: &'a [u8],
    sheet: &'a [u8],
    sizes: Sizes,
) -> io::Result<()>
    requires { Lendable sizes }
{
    let mut definition_room = room::<u32, DEFINITION_ROOM>(GUARD);
    let mut span_room = room::<u32, SPAN_ROOM>(GUARD);
    let mut page_room = room::<u8, PAGE_ROOM>(PAGE_GUARD);
    let definitions = &mut definition_room[..sizes.definitions];
    let spans = &mut span_room[..sizes.spans];
    let page = &mut page_room[..sizes.page];
    let answer = rendering::render(note, sheet, sizes.release, definitions, spans, page);
    report::rendering(to, answer)?;
    report::tables(to, definitions, spans)?;
    report::line(to, page)
}

// Runs the enquiry, and prints what it answers and the part that it hands back.
fn show_enquiry<'a, W: Write>(
    to: &mut W,
    note: &'a [u8],
    sheet: &'a [u8],
    label: &[u8],
) -> io::Result<()> {
    let mut answer: [u64; 3] = [0; 3];
    let part = enquiry::resolve(note, sheet, label, &mut answer);
    report::enquiry(to, &answer)?;
    report::line(to, part)
}

// Compares the note's bytes with the label's, as two labels, and prints whether they are equal.
fn show_comparison<W: Write>(to: &mut W, note: &[u8], label: &[u8]) -> io::Result<()> {
    report::comparison(to, alike::same_label(note, label))
}

// The container does not go on as it should.
fn stop<W: Write>(to: &mut W) -> io::Result<bool> {
    report::text(to, b"bad container\n")?;
    Ok(false)
}

// Runs the four entries on the note, the sheet and the label that stand in `lines`, each with a line end after it.
fn run_lines<W: Write>(to: &mut W, lines: &[u8], sizes: Sizes) -> io::Result<bool>
    requires lendable { Lendable sizes }
    requires framed { Framed (length lines.now) sizes }
{
    let length = sizes.note;
    let beside = length + 1;
    let beside_end = beside + sizes.sheet;
    let start = beside_end + 1;
    let end = start + sizes.label;
    if (lines[length] != b'\n') | (lines[beside_end] != b'\n') | (lines[end] != b'\n') {
        return stop(to);
    }
    let note = &lines[..length];
    let sheet = &lines[beside..beside_end];
    show_reading(to, note, sheet, sizes)?;
    show_rendering(to, note, sheet, sizes)?;
    let label = &lines[start..end];
    show_enquiry(to, note, sheet, label)?;
    show_comparison(to, note, label)?;
    Ok(true)
}

// Reads `lines` full, and runs them.
fn read_lines<R: Read, W: Write>(
    from: &mut R,
    to: &mut W,
    lines: &mut [u8],
    sizes: Sizes,
) -> io::Result<bool>
    requires lendable { Lendable sizes }
    requires framed { Framed (length lines.old) sizes }
{
    if read_full(from, lines)? != lines.len() {
        return stop(to);
    }
    run_lines(to, lines, sizes)
}

// Runs the next note, sheet and label, if there is room for them.
fn run_texts<R: Read, W: Write>(
    from: &mut R,
    to: &mut W,
    room: &mut [u8],
    sizes: Sizes,
) -> io::Result<bool>
    requires { Lendable sizes }
{
    if sizes.note >= room.len() {
        return stop(to);
    }
    let after_note = room.len() - sizes.note - 1;
    if sizes.sheet >= after_note {
        return stop(to);
    }
    if sizes.label >= after_note - sizes.sheet - 1 {
        return stop(to);
    }
    let lines = &mut room[..sizes.note + sizes.sheet + sizes.label + 3];
    read_lines(from, to, lines, sizes)
}

// Runs the next case, if there is room for what is to be lent.
fn run_sizes<R: Read, W: Write>(
    from: &mut R,
    to: &mut W,
    room: &mut [u8],
    sizes: Sizes,
) -> io::Result<bool> {
    if sizes.definitions > DEFINITION_ROOM {
        return stop(to);
    }
    if sizes.spans > SPAN_ROOM {
        return stop(to);
    }
    if sizes.page > PAGE_ROOM {
        return stop(to);
    }
    run_texts(from, to, room, sizes)
}

// Runs the next case, if there is one, and answers whether to go on.
fn run_case<R: Read, W: Write>(from: &mut R, to: &mut W, index: u64) -> io::Result<bool> {
    let mut line = [0u8; container::HEADER];
    let got = read_full(from, &mut line)?;
    if got == 0 {
        return Ok(false);
    }
    writeln!(to, "case {index}")?;
    let Some(sizes) = container::read_header(&line[..got]) else {
        return stop(to);
    };
    let mut text_room = room::<u8, TEXT_ROOM>(0);
    run_sizes(from, to, &mut text_room, sizes)
}

fn main(rt: HostRuntime) -> io::Result<()> {
    let mut from = rt.stdin();
    let mut to = rt.stdout();
    for index in 1..u64::MAX {
        if !run_case(&mut from, &mut to, index)? {
            break;
        }
    }
    Ok(())
}
