// Pieces, tails and spans of a paragraph.
#![tactic(auto)]

ghost use Rattle.std.specs.Prelude.{◌≡◌};
ghost use Rattle.scan.specs.Reading.{past};
ghost use Rattle.inline.specs.ReadingPieces.{quiet};

use row::Range;
use scan::Class;

// What follows a closing bracket, read as an inline link's tail: its length, and where its destination and its title stand in it.
#[derive(Clone, Copy)]
pub struct InlineParts {
    pub size: usize,
    pub destination: Option<Range>,
    pub title: Option<Range>,
}

// Bytes that start plain text whatever follows: no brackets, backticks, backslashes or exclamation marks.
struct Quiet;

impl Class<u8> for Quiet {
    ghost has = { λ _ b. quiet b };

    fn holds(&self, b: u8) -> bool {
        !((b == 96) | (b == 91) | (b == 93) | (b == 92) | (b == 33))
    }
}

// The first place from `at` on where a bracket, a backtick, a backslash or an exclamation mark stands; the end is one.
#[inline(always)]
pub fn plain_end(s: &[u8], at: usize) -> usize
    ensures { result ≡ past quiet s.now at }
{
    scan::past_after::<u8, Quiet, 16>(s, at, &Quiet)
}
