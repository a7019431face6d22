// What a character of two bytes folds to, as one number that holds its bytes; and A to Z as a to z.
#![tactic(auto)]

ghost use Rattle.std.specs.Prelude.{◌<◌, ◌≡◌, cond, Some, None, IfSome};
ghost use Rattle.casefold.specs.Table.{table};
ghost use Rattle.casefold.specs.Fold.{lower};
ghost use Rattle.folding.specs.Pair.{pair, code_of};
ghost use Rattle.folding.specs.Word.{utf8_word, several_word, word_of};

mod entries;

// The entries, which stand in the program once. As a constant they would be built anew at each use.
static ENTRIES: [u16; 1328] = entries::FOLD;

// The table of folding, by its address.
#[derive(Clone, Copy)]
pub struct Table {
    entries: &'static [u16; 1328],
    ghost whole: { entries.now ≡ table },
}

impl Table {
    pub fn new() -> Table {
        Table { entries: &ENTRIES }
    }

    // The bytes that `c` folds to, the first lowest. Where they are on the short list, the table's entry says nothing.
    #[tactic(auto, unfolding(crate::specs::Word::word_of))]
    pub fn word_of(&self, c: usize) -> u64
        requires { c < 1328 }
        ensures { result ≡ word_of c }
    {
        match several_word(c) {
            Some(word) => word,
            None => utf8_word(u64::from(self.entries[c])),
        }
    }
}

// The short list: those that fold to several.
#[tactic(auto, unfolding(crate::specs::Word::several_word))]
fn several_word(c: usize) -> Option<u64>
    ensures { result ≡ several_word c }
{
    match c {
        0x00DF => Some(0x7373),
        0x0130 => Some(0x87CC69),
        0x0149 => Some(0x6EBCCA),
        0x01F0 => Some(0x8CCC6A),
        0x0390 => Some(0x81CC88CCB9CE),
        0x03B0 => Some(0x81CC88CC85CF),
        _ => None,
    }
}

// The bytes of one code point.
#[tactic(auto, unfolding(crate::specs::Word::utf8_word))]
fn utf8_word(f: u64) -> u64
    requires { f < 65536 }
    ensures { result ≡ utf8_word f }
{
    if f < 0x80 {
        return f;
    }
    if f < 0x800 {
        return 0xC0 + f / 64 + 256 * (0x80 + f % 64);
    }
    0xE0 + f / 4096 + 256 * (0x80 + f / 64 % 64) + 65536 * (0x80 + f % 64)
}

// Which character from U+0080 to U+052F two bytes are, if they are one.
#[tactic(auto, unfolding(crate::specs::Pair::pair, crate::specs::Pair::code_of))]
pub fn code_of(b: u8, x: u8) -> Option<usize>
    ensures value { result ≡ cond (pair b x) (Some (code_of b x)) None }
    ensures bound { IfSome result (λ c. c < 1328) }
{
    let k = usize::from(b) * 64 + usize::from(x);
    if ((0xC2 <= b) & (b <= 0xD4)) & (((0x80 <= x) & (x <= 0xBF)) & (k < 13744)) {
        return Some(k - 12416);
    }
    None
}

// A to Z as a to z.
#[tactic(auto, unfolding(casefold::specs::Fold::lower))]
pub fn lowered(b: u8) -> u8
    ensures { result ≡ lower b }
{
    b.to_ascii_lowercase()
}
