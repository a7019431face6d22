// A code span on the page.
#![tactic(auto)]

ghost use Rattle.std.specs.Prelude.{◌≡◌};
ghost use mathlib.Core.List.{map, flat_map};
ghost use Rattle.buffer.specs.Stored.{HasRoom, Grows};
ghost use Rattle.escaping.specs.Escaping.{escaped};
ghost use Rattle.code.specs.Code.{feed_as_space};
ghost use Rattle.code.specs.Reading.{space_or_lf, margin, code_of, code_element};

use buffer::Page;
use scan::Class;

// An LF becomes a space.
fn spaced_byte(b: u8) -> u8
    ensures { result ≡ feed_as_space b }
{
    if b == b'\n' { b' ' } else { b }
}

// Spaces, and LFs, which become spaces.
#[derive(Drop)]
struct Spaces;

impl Class<u8> for Spaces {
    ghost has = { λ _ b. space_or_lf b };

    fn holds(&self, b: u8) -> bool {
        matches!(b, b' ' | b'\n')
    }
}

// How many bytes are dropped at each end of a code span's bytes: one or none.
#[tactic(auto, using(crate::proofs::Margin::margin_one, crate::proofs::Margin::margin_end, crate::proofs::Margin::margin_front))]
fn dropped_spaces(s: &[u8]) -> usize
    ensures { result ≡ margin s.now }
{
    let front = scan::past(s, 0, &Spaces);
    let most = s.len();
    if (0 < front) & (front < most) {
        if Spaces.holds(s[most - 1]) {
            return 1;
        }
    }
    0
}

// Bytes of code.
fn put_code_bytes(page: &mut Page, s: &[u8])
    requires { HasRoom page.old (flat_map escaped (map feed_as_space s.now)) }
    ensures { Grows page.old (flat_map escaped (map feed_as_space s.now)) page.new }
{
    let mut i = escaping::put_run(page, s, 0, b'\n');
    while i < s.len() {
        escaping::put_escaped(page, spaced_byte(s[i]));
        i = escaping::put_run(page, s, i + 1, b'\n');
    }
}

// The content of a code span, between its tags.
#[tactic(auto, using(crate::proofs::Margin::margin_fits))]
pub fn put_code(page: &mut Page, s: &[u8])
    requires { HasRoom page.old (code_of s.now) }
    ensures { Grows page.old (code_of s.now) page.new }
{
    let from = dropped_spaces(s);
    let to = s.len() - from;
    put_code_bytes(page, &s[from..to]);
}

// A code span, with its tags or without.
pub fn put_code_span(page: &mut Page, tags: bool, s: &[u8])
    requires { HasRoom page.old (code_element tags s.now) }
    ensures { Grows page.old (code_element tags s.now) page.new }
{
    if !tags {
        put_code(page, s);
        return;
    }
    page.put(b"<code>");
    put_code(page, s);
    page.put(b"</code>");
}
