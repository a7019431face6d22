// The destination of a link in its href, and that of an image in its src.
#![tactic(auto)]

ghost use Rattle.std.specs.Prelude.{◌≡◌, length, ◌<◌};
ghost use Rattle.buffer.specs.Stored.{HasRoom, Grows};
ghost use Rattle.href.specs.Href.{stays, hex_digit, percent, href_byte};
ghost use Rattle.href.specs.Reading.{href_of};

use buffer::Page;

// Whether a byte stays as it is in an href.
#[tactic(auto, unfolding(crate::specs::Href::stays))]
fn stays_in_href(b: u8) -> bool
    ensures { result ≡ stays b }
{
    matches!(
        b,
        b'A'..=b'Z'
            | b'a'..=b'z'
            | b'0'..=b'9'
            | b'-'
            | b'_'
            | b'.'
            | b'~'
            | b'!'
            | b'*'
            | b'\''
            | b'('
            | b')'
            | b';'
            | b':'
            | b'@'
            | b'='
            | b'+'
            | b'$'
            | b','
            | b'/'
            | b'?'
            | b'%'
            | b'#'
    )
}

// A capital hexadecimal digit.
#[tactic(auto, unfolding(crate::specs::Href::hex_digit))]
fn hex_digit(d: u8) -> u8
    requires { d < 16 }
    ensures { result ≡ hex_digit d }
{
    b"0123456789ABCDEF"[d as usize]
}

// A percent sign and the byte's two digits.
fn put_percent(page: &mut Page, b: u8)
    requires { HasRoom page.old (percent b) }
    ensures { Grows page.old (percent b) page.new }
{
    page.put_byte(b'%');
    page.put_byte(hex_digit(b / 16));
    page.put_byte(hex_digit(b % 16));
}

// A byte of a destination.
#[tactic(auto, unfolding(crate::specs::Href::href_byte))]
fn put_href_byte(page: &mut Page, b: u8)
    requires { HasRoom page.old (href_byte b) }
    ensures { Grows page.old (href_byte b) page.new }
{
    if stays_in_href(b) {
        page.put_byte(b);
    } else if b == b'&' {
        page.put(b"&amp;");
    } else {
        put_percent(page, b);
    }
}

// A destination without its delimiters.
#[tactic(auto, using(escaping::proofs::Gives::begins, escaping::proofs::Gives::unit_inside, escaping::proofs::Gives::unit_room, escaping::proofs::Gives::unit_gives, escaping::proofs::Gives::all_undone))]
pub fn put_href(page: &mut Page, s: &[u8])
    requires { HasRoom page.old (href_of s.now) }
    ensures { Grows page.old (href_of s.now) page.new }
{
    let mut i = 0;
    while i < s.len() {
        let j = escaping::past_backslash(s, i);
        put_href_byte(page, s[j]);
        i = j + 1;
    }
}
