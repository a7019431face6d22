// How many spans a paragraph can have at the most, and how many brackets can be open in it at once, told by its bytes alone: where both fit, its rows can
// be stored in the pass that finds them.
#![tactic(auto)]

ghost use Rattle.std.specs.Prelude.{◌≡◌, ◌+◌, ◌<◌, ◌^◌, length};
ghost use Rattle.most.specs.Counting.{bracket, ends_mark, with_mark};
ghost use Rattle.most.specs.Most.{ends, held};

// Marks with which a span may end, and brackets that may stay open.
#[derive(Clone, Copy)]
pub struct Most {
    pub ends: usize,
    pub held: usize,
}

// Whether a byte is a bracket or a backslash.
fn is_bracket(b: u8) -> bool
    ensures { result ≡ bracket b }
{
    (b == 91) | (b == 92) | (b == 93)
}

// Whether a span may end with a mark.
fn ends_mark(b: u8) -> bool
    ensures { result ≡ ends_mark b }
{
    (b == 93) | (b == 96)
}

// What was counted so far, and whether a `[` is the last bracket, backtick or backslash that was passed.
#[derive(Clone, Copy)]
struct Counted {
    opened: bool,
    most: Most,
}

impl Counted {
    // With one mark more: a bracket, a backslash, or the backticks of a run together.
    fn with_mark(self, b: u8) -> Counted
        requires ends_bound { self.most.ends + 1 < 2 ^ 64 }
        requires held_bound { self.most.held + 1 < 2 ^ 64 }
        ensures { result ≡ with_mark self b }
    {
        Counted {
            opened: b == 91,
            most: Most {
                ends: self.most.ends + usize::from(ends_mark(b)),
                held: self.most.held + usize::from(self.opened & (b != 93)),
            },
        }
    }
}

// Both of a paragraph.
pub fn most_of(p: &[u8]) -> Most
    requires { length p.now < 2 ^ 32 }
    ensures ends_value { result.ends ≡ ends p.now }
    ensures held_value { result.held ≡ held p.now }
{
    let mut i = 0;
    let mut m = Counted {
        opened: false,
        most: Most { ends: 0, held: 0 },
    };
    // No range: the place leaps over runs of backticks and over plain bytes.
    while i < p.len() {
        let b = p[i];
        if is_bracket(b) {
            m = m.with_mark(b);
            i += 1;
        } else if b == 96 {
            m = m.with_mark(96);
            i = ticks::backticks_end(p, i + 1);
        } else {
            i = inline::plain_end(p, i + 1);
        }
    }
    Most {
        held: m.most.held + usize::from(m.opened),
        ..m.most
    }
}
