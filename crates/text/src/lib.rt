// Well-formed UTF-8, the note's length limit, and counting characters.
#![tactic(auto)]

ghost use Rattle.std.specs.Prelude.{◌≡◌, drop};
ghost use Rattle.text.specs.Sequences.{leading_ones, sequence_length};
ghost use Rattle.text.specs.Reading.{character_length, barred, good_length, good_ascii, past_ascii, first_bad, lead, least, most, second, continuation};
ghost use Rattle.text.specs.Promise.{Promise};

use scan::Class;

// The most bytes that a note may have.
pub const NOTE_LIMIT: usize = 32768;

// Why a note is refused for its bytes: it is too long (the length), or bad (the place where no good character starts).
#[derive(Clone, Copy)]
pub enum Fault {
    Long(usize),
    Bad(usize),
}

// How many one bits the byte begins with, as the leading zeros of its complement: a rule of the project.
fn leading_ones(b: u8) -> u32
    ensures { result ≡ leading_ones b }
{
    u8::leading_zeros(!b)
}

// How many bytes a sequence has that starts with `b`, where one starts so.
#[tactic(auto, using(std::proofs::lemmas::Bool::Decides::nat_tests), unfolding(crate::specs::Sequences::sequence_length))]
pub fn sequence_length(b: u8) -> Option<usize>
    ensures { result ≡ sequence_length b }
{
    match leading_ones(b) {
        1 | 5.. => None,
        n => Some(n.max(1) as usize),
    }
}

// Whether `b` starts a character of two to four bytes.
fn is_lead(b: u8) -> bool
    ensures { result ≡ lead b }
{
    (0xC2..=0xF4).contains(&b)
}

// The least second byte after `b`: after E0 and F0 a lower one would be overlong.
fn least_second(b: u8) -> u8
    ensures { result ≡ least b }
{
    match b {
        0xE0 => 0xA0,
        0xF0 => 0x90,
        _ => 0x80,
    }
}

// The largest second byte after `b`: after ED a higher one would make a surrogate, after F4 it would pass U+10FFFF.
fn most_second(b: u8) -> u8
    ensures { result ≡ most b }
{
    match b {
        0xED => 0x9F,
        0xF4 => 0x8F,
        _ => 0xBF,
    }
}

// Whether `x` may be the second byte after `b`.
fn is_second(b: u8, x: u8) -> bool
    ensures { result ≡ second b x }
{
    (least_second(b)..=most_second(b)).contains(&x)
}

// Whether `x` may be a third or fourth byte.
fn is_continuation(x: u8) -> bool
    ensures { result ≡ continuation x }
{
    (0x80..=0xBF).contains(&x)
}

// How many bytes the character at `at` has, where one starts there. Past the end a byte reads as 0, which continues nothing.
#[tactic(auto, using(crate::proofs::ByOnes::nothing_left, crate::proofs::ByOnes::ascii_here, crate::proofs::ByOnes::none_here, crate::proofs::ByOnes::whole, crate::proofs::ByOnes::broken))]
pub fn character_length(s: &[u8], at: usize) -> Option<usize>
    ensures { result ≡ character_length (drop at s.now) }
{
    let b = *s.get(at)?;
    if b < 0x80 {
        return Some(1);
    }
    let n = sequence_length(b)?;
    let two = is_lead(b) & is_second(b, scan::peek(s, at + 1));
    let three = (n < 3) | is_continuation(scan::peek(s, at + 2));
    let four = (n < 4) | is_continuation(scan::peek(s, at + 3));
    if two & three & four {
        return Some(n);
    }
    None
}

// Byte 0 or 13.
fn is_barred(b: u8) -> bool
    ensures { result ≡ barred b }
{
    (b == 0) | (b == 13)
}

// The same of a character other than these.
#[tactic(auto, unfolding(crate::specs::Reading::good_length))]
fn good_length(s: &[u8], at: usize) -> Option<usize>
    ensures { result ≡ good_length (drop at s.now) }
{
    if is_barred(scan::peek(s, at)) {
        return None;
    }
    character_length(s, at)
}

// The bytes that are good characters each.
struct GoodAscii;

impl Class<u8> for GoodAscii {
    ghost has = { λ _ b. good_ascii b };

    fn holds(&self, b: u8) -> bool {
        (b < 0x80) & !is_barred(b)
    }
}

// Past whole strides of bytes that are good characters each. They are looked for at every sixteenth place only, so that other
// text costs little more.
#[tactic(auto, unfolding(crate::specs::Reading::past_ascii))]
fn past_ascii(s: &[u8], at: usize) -> usize
    ensures { result ≡ past_ascii s.now at }
{
    if at % 16 == 0 {
        return scan::past_strides(s, at, &GoodAscii);
    }
    at
}

// The first place where no good character starts.
#[tactic(auto, using(crate::proofs::Steps::bad_here, crate::proofs::Steps::none_bad, crate::proofs::Steps::within_note, crate::proofs::Ascii::from_start, crate::proofs::Ascii::goes_on, crate::proofs::Ascii::later))]
pub fn first_bad(s: &[u8]) -> Option<usize>
    ensures { result ≡ first_bad s.now 0 }
{
    let mut i = past_ascii(s, 0);
    while i < s.len() {
        match good_length(s, i) {
            None => return Some(i),
            Some(n) => i = past_ascii(s, i + n),
        }
    }
    None
}

// A note's length and bytes.
#[tactic(auto, using(crate::proofs::Claims::promised, crate::proofs::Steps::checks), unfolding(crate::specs::Reading::check_of))]
pub fn check(note: &[u8]) -> Result<(), Fault>
    ensures { Promise note.now result }
{
    if NOTE_LIMIT < note.len() {
        return Err(Fault::Long(note.len()));
    }
    match first_bad(note) {
        Some(k) => Err(Fault::Bad(k)),
        None => Ok(()),
    }
}
