// Text and titles on the page: escapes lose their backslash, four characters are replaced.
#![tactic(auto)]

ghost use Rattle.std.specs.Prelude.{◌≡◌, length, drop, ◌+◌, ◌<◌};
ghost use Rattle.scan.specs.Reading.{past};
ghost use Rattle.buffer.specs.Stored.{HasRoom, Grows};
ghost use Rattle.escaping.specs.Escaping.{escaped};
ghost use Rattle.escaping.specs.Reading.{backslash, as_is, clear, front, text_of};

use buffer::Page;
use scan::Class;

// A byte of text, of code or of a title.
#[tactic(auto, unfolding(crate::specs::Escaping::escaped))]
pub fn put_escaped(page: &mut Page, b: u8)
    requires { HasRoom page.old (escaped b) }
    ensures { Grows page.old (escaped b) page.new }
{
    match b {
        b'&' => page.put(b"&amp;"),
        b'<' => page.put(b"&lt;"),
        b'>' => page.put(b"&gt;"),
        b'"' => page.put(b"&quot;"),
        _ => page.put_byte(b),
    }
}

// The place of the byte that stands at `i` once escapes are undone.
pub fn past_backslash(s: &[u8], i: usize) -> usize
    requires { i < length s.now }
    ensures { result ≡ i + backslash (drop i s.now) }
{
    if scan::escape_at(s, i) { i + 1 } else { i }
}

// The bytes that are neither escaped nor `mark`.
#[derive(Drop)]
struct Plain {
    mark: u8,
}

impl Class<u8> for Plain {
    ghost has = { λ c. as_is c.mark };

    fn holds(&self, b: u8) -> bool {
        !((b == b'&') | (b == b'<') | (b == b'>') | (b == b'"') | (b == self.mark))
    }
}

// Those of them that two ranges and `mark` leave, which are compared in fewer steps.
#[derive(Drop)]
struct Clear {
    mark: u8,
}

impl Class<u8> for Clear {
    ghost has = { λ c. clear c.mark };

    fn holds(&self, b: u8) -> bool {
        !((34 <= b) & (b <= 38) | (60 <= b) & (b <= 62) | (b == self.mark))
    }
}

// The first place from `at` on where a byte that is escaped or `mark` stands; the end is one. Long runs are passed by strides.
pub fn as_is_end(s: &[u8], at: usize, mark: u8) -> usize
    ensures { result ≡ past (as_is mark) s.now at }
{
    let plain = Plain { mark };
    if !plain.holds(scan::peek(s, at)) {
        return at;
    }
    let near = scan::past_strides(s, at, &Clear { mark });
    scan::past(s, near, &plain)
}

// Writes the bytes from `at` on up to the first that is escaped or is `mark`, and gives its place; the end is one.
pub fn put_run(page: &mut Page, s: &[u8], at: usize, mark: u8) -> usize
    requires { HasRoom page.old (front mark (drop at s.now)) }
    ensures end { result ≡ past (as_is mark) s.now at }
    ensures grows { Grows page.old (front mark (drop at s.now)) page.new }
{
    let end = as_is_end(s, at, mark);
    if at < end {
        page.put(&s[at..end]);
    }
    end
}

// A text, or a title without its delimiters.
pub fn put_text(page: &mut Page, s: &[u8])
    requires { HasRoom page.old (text_of s.now) }
    ensures { Grows page.old (text_of s.now) page.new }
{
    let mut i = put_run(page, s, 0, b'\\');
    while i < s.len() {
        let j = past_backslash(s, i);
        put_escaped(page, s[j]);
        i = put_run(page, s, j + 1, b'\\');
    }
}
