// Kinds of bytes, escapes, and the first unescaped delimiter.
#![tactic(auto)]

ghost use Rattle.std.specs.Prelude.{◌≡◌, ◌+◌, ◌≤◌, length, get_or, set, drop, Bool};
ghost use Rattle.scan.specs.Byte.{punctuation, blank, escapes};
ghost use Rattle.scan.specs.Reading.{runs, past, past_strides, closing};

// ASCII punctuation.
pub fn is_punctuation(b: u8) -> bool
    ensures { result ≡ punctuation b }
{
    (33 <= b) & (b <= 47) | (58 <= b) & (b <= 64) | (91 <= b) & (b <= 96) | (123 <= b) & (b <= 126)
}

// Space, tab or LF.
pub fn is_blank(b: u8) -> bool
    ensures { result ≡ blank b }
{
    (b == 32) | (b == 9) | (b == 10)
}

// The item at `i`, and `absent` past the end.
pub fn item_at<T: Copy>(s: &[T], i: usize, absent: T) -> T
    ensures { result ≡ get_or s.now i absent }
{
    s.get(i).copied().unwrap_or(absent)
}

// The byte at `i`, and 0 past the end.
pub fn peek(s: &[u8], i: usize) -> u8
    ensures { result ≡ get_or s.now i 0 }
{
    item_at(s, i, 0)
}

// Stores `x` at `i`, if there is such a place.
pub fn put<T: Copy>(s: &mut [T], i: usize, x: T)
    ensures { s.new ≡ set s.old i x }
{
    if i < s.len() {
        s[i] = x;
    }
}

// Whether an escape stands at `i`.
pub fn escape_at(s: &[u8], i: usize) -> bool
    ensures { result ≡ escapes (drop i s.now) }
{
    if s.len() <= i {
        return false;
    }
    if s[i] != 92 {
        return false;
    }
    is_punctuation(peek(s, i + 1))
}

// The place of the first unescaped `close` from `at` on, where neither `bar` nor `other` stands unescaped before it.
pub fn closing_place(s: &[u8], at: usize, close: u8, bar: u8, other: u8) -> Option<usize>
    ensures { result ≡ closing close bar other (drop at s.now) at }
{
    let mut inside = false;
    for i in at..s.len() {
        let b = s[i];
        if !inside & (b == close) {
            return Some(i);
        }
        if !inside & ((b == bar) | (b == other)) {
            return None;
        }
        inside = !inside & escape_at(s, i);
    }
    None
}

// A class of items.
pub trait Class<T> {
    ghost has: { Self → T → Bool };

    // Whether an item is of the class.
    fn holds(&self, x: T) -> bool
        ensures { result ≡ has self.now x };
}

// Whether all items pass. None decides alone, so that they are compared at once.
fn all_pass<T: Copy, C: Class<T>>(s: &[T], class: &C) -> bool
    ensures { result ≡ runs (C.has class.now) (length s.now) s.now 0 }
{
    let mut all = true;
    for x in s {
        all = all & class.holds(*x);
    }
    all
}

// Past the whole strides of sixteen items from `at` on that all pass. Out of line, so that what calls it stays short.
#[inline(never)]
pub fn past_strides<T: Copy, C: Class<T>>(s: &[T], at: usize, class: &C) -> usize
    ensures { result ≡ past_strides (C.has class.now) s.now at }
{
    let mut i = at;
    while i < s.len() {
        if s.len() - i < 16 {
            return i;
        }
        if !all_pass(&s[i..i + 16], class) {
            return i;
        }
        i += 16;
    }
    i
}

// The first place from `at` on whose item does not pass; the end is one.
pub fn past<T: Copy, C: Class<T>>(s: &[T], at: usize, class: &C) -> usize
    ensures { result ≡ past (C.has class.now) s.now at }
{
    for i in at..s.len() {
        if !class.holds(s[i]) {
            return i;
        }
    }
    at.max(s.len())
}

// The same, by strides; out of line too.
#[inline(never)]
pub fn past_long<T: Copy, C: Class<T>>(s: &[T], at: usize, class: &C) -> usize
    ensures { result ≡ past (C.has class.now) s.now at }
{
    past(s, past_strides(s, at, class), class)
}

// The same. Strides are tried once `N` items are passed.
#[inline(always)]
pub fn past_after<T: Copy, C: Class<T>, const N: usize>(s: &[T], at: usize, class: &C) -> usize
    ensures { result ≡ past (C.has class.now) s.now at }
{
    for i in at..s.len() {
        let x = s[i];
        if !class.holds(x) {
            return i;
        }
        if i + 1 - at == N {
            return past_long(s, i + 1, class);
        }
    }
    at.max(s.len())
}
