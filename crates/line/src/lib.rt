// The line on which a place of a text stands, line after line from an earlier one on.
#![tactic(auto)]

ghost use Rattle.std.specs.Prelude.{◌≡◌, ◌<◌, length};
ghost use Rattle.line.specs.Promise.{none, line_at, Before};

// A line: its number, from 1, and the place after it, past its LF.
#[derive(Clone, Copy)]
pub struct Line {
    pub number: usize,
    pub end: usize,
}

impl Line {
    // Before the first line. A line and no Option: counting goes on from it as from every other line.
    pub fn none() -> Line
        ensures { result ≡ none }
    {
        Line { number: 0, end: 0 }
    }
}

// The line on which `place` stands, from that of an earlier place on. Nothing is counted where it is the same. Out of line, so that what calls it
// stays short: most places stand on the line before.
#[inline(never)]
#[tactic(auto, using(crate::proofs::Lines::number_fits))]
pub fn line_at(s: &[u8], from: Line, place: usize) -> Line
    requires before { Before s.now from place }
    requires place_in_bounds { place < length s.now }
    ensures { result ≡ line_at s.now place }
{
    let mut number = from.number;
    let mut end = from.end;
    while end <= place {
        number += 1;
        end = block::line_end(s, end);
    }
    Line { number, end }
}
