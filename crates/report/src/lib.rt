// What the program `samples` writes, to any writer. Where the writer says what it holds, text, lines and numbers are appended to it.
#![tactic(auto)]

ghost use Rattle.std.specs.Prelude.{◌<◌, [], ◌∷◌, ◌++◌, OnOk, decimal};
ghost use Rattle.std.specs.Io.KnownBytes.{Appends};

use notice::Counts;
use rendering::Rendered;
use std::io;
use std::io::Write;

const DEFINITION_WIDTH: usize = 8;

const SPAN_WIDTH: usize = 11;

pub fn text<W: Write>(to: &mut W, bytes: &[u8]) -> io::Result<()>
    ensures { OnOk result (Appends (W.contents to.old) (W.contents to.new) bytes.now) }
{
    to.write_all(bytes)
}

// The bytes and a line end.
pub fn line<W: Write>(to: &mut W, bytes: &[u8]) -> io::Result<()>
    ensures { OnOk result (Appends (W.contents to.old) (W.contents to.new) (bytes.now ++ 10 ∷ [])) }
{
    text(to, bytes)?;
    text(to, b"\n")
}

// A space and the number.
pub fn number<W: Write>(to: &mut W, n: u64) -> io::Result<()>
    ensures { OnOk result (Appends (W.contents to.old) (W.contents to.new) (32 ∷ decimal n)) }
{
    write!(to, " {n}")
}

// One line: the reader's answer's number, its value, the two counts, and the text that it names.
pub fn reading<W: Write>(to: &mut W, answer: Result<Counts, notice::Refusal>) -> io::Result<()> {
    match answer {
        Ok(Counts { definitions, spans }) => writeln!(to, "answer 0 0 {definitions} {spans} 0"),
        Err(refusal) => writeln!(
            to,
            "answer {} {} 0 0 {}",
            refusal.number(),
            refusal.value(),
            refusal.text(),
        ),
    }
}

// One line: the page writer's answer's number, its value, the two counts, the HTML's length, and the text that it names.
pub fn rendering<W: Write>(
    to: &mut W,
    answer: Result<Rendered, rendering::Refusal>,
) -> io::Result<()> {
    match answer {
        Ok(Rendered { counts, bytes }) => writeln!(
            to,
            "rendering 0 0 {} {} {bytes} 0",
            counts.definitions, counts.spans,
        ),
        Err(refusal) => writeln!(
            to,
            "rendering {} {} 0 0 0 {}",
            refusal.number(),
            refusal.value(),
            refusal.text(),
        ),
    }
}

// One line: the enquiry's answer's number, its value, and the text that it names.
pub fn enquiry<W: Write>(to: &mut W, answer: &[u64; 3]) -> io::Result<()> {
    let [number, value, text] = *answer;
    writeln!(to, "enquiry {number} {value} {text}")
}

// One line: 1 where two labels are equal, else 0.
pub fn comparison<W: Write>(to: &mut W, equal: bool) -> io::Result<()> {
    writeln!(to, "same {}", u8::from(equal))
}

// Every number of the table, a row of so many to a line, after the name. What is no whole row at the end is a line too.
fn rows<W: Write>(to: &mut W, name: &str, table: &[u32], width: usize) -> io::Result<()>
    requires { 0 < width }
{
    for row in table.chunks(width) {
        write!(to, "{name}")?;
        for n in row {
            number(to, u64::from(*n))?;
        }
        writeln!(to)?;
    }
    Ok(())
}

// Both tables whole.
pub fn tables<W: Write>(to: &mut W, definitions: &[u32], spans: &[u32]) -> io::Result<()> {
    rows(to, "definition", definitions, DEFINITION_WIDTH)?;
    rows(to, "span", spans, SPAN_WIDTH)
}
