// The cases that the program is run on, one after the other: a header line, and the bytes of the note, of the sheet and of the label, each
// with a line end. The header line is six decimal numbers of six digits and one digit, with a space between them: how many numbers are lent
// to the definition table, how many to the span table, how many bytes to the page, how many bytes the note has, how many the sheet, how
// many the label; and the release setting, 0 no, 1 yes.
#![tactic(auto)]

ghost use Rattle.std.specs.Prelude.{◌≡◌};
ghost use Rattle.container.specs.Container.{number_from, setting, ruled, line_of};

// The length of a header line with its line end.
pub const HEADER: usize = 44;

// The numbers lent to each table, the bytes lent to the page, the lengths of the note, the sheet and the label, and whether they are for a
// release.
#[derive(Clone, Copy)]
pub struct Sizes {
    pub definitions: usize,
    pub spans: usize,
    pub page: usize,
    pub note: usize,
    pub sheet: usize,
    pub label: usize,
    pub release: bool,
}

// `0` or `1`.
fn is_setting(b: u8) -> bool
    ensures { result ≡ setting b }
{
    (b == b'0') | (b == b'1')
}

// Whether the line has a header's length, six spaces, a setting and a line end.
fn is_ruled(line: &[u8]) -> bool
    ensures { result ≡ ruled line.now }
{
    (line.len() == HEADER)
        & (scan::peek(line, 6) == 32)
        & (scan::peek(line, 13) == 32)
        & (scan::peek(line, 20) == 32)
        & (scan::peek(line, 27) == 32)
        & (scan::peek(line, 34) == 32)
        & (scan::peek(line, 41) == 32)
        & is_setting(scan::peek(line, 42))
        & (scan::peek(line, 43) == 10)
}

// What a header line says; none where it says nothing.
pub fn read_header(line: &[u8]) -> Option<Sizes>
    ensures { result ≡ line_of line.now }
{
    if !is_ruled(line) {
        return None;
    }
    Some(Sizes {
        definitions: read_number(&line[0..6])?,
        spans: read_number(&line[7..13])?,
        page: read_number(&line[14..20])?,
        note: read_number(&line[21..27])?,
        sheet: read_number(&line[28..34])?,
        label: read_number(&line[35..41])?,
        release: scan::peek(line, 42) == b'1',
    })
}

// The number that the digits of `text` make, at most six of them; none otherwise.
pub fn read_number(text: &[u8]) -> Option<usize>
    ensures { result ≡ number_from text.now 0 }
{
    let mut n: usize = 0;
    for b in text {
        if !b.is_ascii_digit() || n >= 100000 {
            return None;
        }
        n = n * 10 + (b - b'0') as usize;
    }
    Some(n)
}
