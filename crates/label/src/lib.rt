// Link labels: where one ends, and whether bytes are one.
#![tactic(auto)]

ghost use Rattle.std.specs.Prelude.{◌≡◌, ◌<◌, length, drop, leb};
ghost use Rattle.scan.specs.Reading.{past};
ghost use Rattle.text.specs.Sequences.{characters};
ghost use Rattle.label.specs.Label.{label_limit};
ghost use Rattle.label.specs.Reading.{inky, fits, label_end, escapes_in, plain, unclosed, is_label};

use scan::Class;

// The most characters that a label may have.
pub const LABEL_LIMIT: usize = 999;

// How many characters `l` has.
#[tactic(auto, unfolding(text::specs::Sequences::characters))]
fn character_count(l: &[u8]) -> usize
    ensures { result ≡ characters l.now }
{
    let mut n = 0;
    for b in l {
        n += usize::from(text::sequence_length(*b).is_some());
    }
    n
}

// Whether `l` has a byte that is not blank.
#[tactic(auto, unfolding(crate::specs::Reading::inky))]
fn is_inked(l: &[u8]) -> bool
    ensures { result ≡ inky l.now }
{
    l.iter().any(|b| !scan::is_blank(*b))
}

// Whether `l` has at most so many characters. They are counted only where there are more bytes than that.
#[tactic(auto, using(crate::proofs::Fits::few_bytes))]
fn is_short(l: &[u8]) -> bool
    ensures { result ≡ leb (characters l.now) label_limit }
{
    l.len() <= LABEL_LIMIT || character_count(l) <= LABEL_LIMIT
}

// Whether `l` has a byte that is not blank, and at most so many characters.
#[tactic(auto, unfolding(crate::specs::Reading::fits, crate::specs::Reading::fits_after))]
fn label_fits(l: &[u8]) -> bool
    ensures { result ≡ fits l.now }
{
    is_inked(l) && is_short(l)
}

// From just after a `[`: the place of the label's `]`.
#[tactic(auto, using(crate::proofs::Label::within), unfolding(crate::specs::Reading::label_end))]
pub fn label_end(s: &[u8], at: usize) -> Option<usize>
    ensures { result ≡ label_end (drop at s.now) at }
{
    let end = scan::closing_place(s, at, 93, 91, 93)?;
    if label_fits(&s[at..end]) {
        return Some(end);
    }
    None
}

// Whether the byte at `i` of `l`, which a `]` follows, starts an escape.
fn escape_in(l: &[u8], i: usize) -> bool
    requires { i < length l.now }
    ensures { result ≡ escapes_in l.now i }
{
    l[i] == 92 && (i + 1 == l.len() || scan::is_punctuation(scan::peek(l, i + 1)))
}

// Bytes that neither end a label nor start an escape.
struct Plain;

impl Class<u8> for Plain {
    ghost has = { λ _ b. plain b };

    fn holds(&self, b: u8) -> bool {
        !((b == 91) | (b == 93) | (b == 92))
    }
}

// The first place from `at` on where a bracket or a backslash stands; the end is one.
fn plain_end(l: &[u8], at: usize) -> usize
    ensures { result ≡ past plain l.now at }
{
    scan::past_after::<u8, Plain, 16>(l, at, &Plain)
}

// Whether the `]` of `[` and `l` and `]` is the first that closes, and no other `[` opens before it.
fn ends_unclosed(l: &[u8]) -> bool
    ensures { result ≡ unclosed l.now }
{
    let mut i = 0;
    // No range: the place leaps over escapes and over plain bytes.
    while i < l.len() {
        let b = l[i];
        if (b == 91) | (b == 93) {
            return false;
        }
        if escape_in(l, i) {
            i += 2;
        } else {
            i = plain_end(l, i + 1);
        }
    }
    i == l.len()
}

// Whether `l`, set between `[` and `]`, is exactly one label. A text that holds a bracket is left at the first one, so that texts inside
// each other are read once in all.
#[tactic(auto, unfolding(crate::specs::Reading::is_label))]
pub fn is_label(l: &[u8]) -> bool
    ensures { result ≡ is_label l.now }
{
    ends_unclosed(l) && label_fits(l)
}
