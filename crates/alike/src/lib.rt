// Whether two link labels are equal, and the steps that tell it: both labels are read in step, with no copy, up to the first difference.
// ASCII, and characters that are the same bytes, need no table. From the first other character on the table tells what each folds to.
#![tactic(auto)]

ghost use Rattle.std.specs.Prelude.{◌≡◌, false, ◌<◌, length, get_or, leb, IfSome, IfOk, IfErr};
ghost use Rattle.std.specs.Iterator.{YieldsFirst, item_count};
ghost use Rattle.scan.specs.Byte.{blank};
ghost use Rattle.scan.specs.Reading.{past};
ghost use Rattle.matching.specs.Reading.{equals, matches};
ghost use Rattle.alike.specs.Reading.{gap, level, beyond, apart, unlike, same, SameCount};
ghost use Rattle.alike.specs.Left.{form_from, form, Opens, leads, Passed, Meets, Shared};

use folding::Table;
use scan::Class;

// The last byte that is ASCII.
pub const ASCII: u8 = 127;

// Space, tab and LF.
struct Blank;

impl Class<u8> for Blank {
    ghost has = { λ _ b. blank b };

    fn holds(&self, b: u8) -> bool {
        scan::is_blank(b)
    }
}

// The first place from `at` on where no blank stands; the end is one. Most runs have one blank or none, and two tests tell these quicker
// than `scan::past_after` does.
pub fn past_blanks(s: &[u8], at: usize) -> usize
    ensures { result ≡ past blank s.now at }
{
    if !scan::is_blank(scan::peek(s, at)) {
        return at;
    }
    let next = at + 1;
    if !scan::is_blank(scan::peek(s, next)) {
        return next;
    }
    scan::past_long(s, at, &Blank)
}

// Whether the blanks from `i` to `p` count as a space: there are some, and not at the start.
pub fn gap_before(i: usize, p: usize) -> bool
    ensures { result ≡ gap i p }
{
    (i != 0) & (p != i)
}

// Where a label goes on that was read up to `from`: at `at`, past the blanks there.
#[derive(Clone, Copy)]
pub struct Place<'a> {
    pub label: &'a [u8],
    pub from: usize,
    pub at: usize,
    ghost reached: { at ≡ past blank label.now from },
}

impl<'a> Place<'a> {
    #[inline(always)]
    pub fn after(label: &'a [u8], from: usize) -> Place<'a>
        ensures label { result.label.now ≡ label.now }
        ensures from { result.from ≡ from }
        ensures at { result.at ≡ past blank label.now from }
    {
        let at = past_blanks(label, from);
        Place { label, from, at }
    }

    // Whether the label is over.
    pub fn is_over(&self) -> bool
        ensures { result ≡ leb (length self.now.label.now) self.now.at }
    {
        self.label.len() <= self.at
    }

    // Whether the blanks count as a space.
    pub fn has_gap(&self) -> bool
        ensures { result ≡ gap self.now.from self.now.at }
    {
        gap_before(self.from, self.at)
    }

    // The byte there, and 0 where the label is over.
    pub fn byte(&self) -> u8
        ensures { result ≡ get_or self.now.label.now self.now.at 0 }
    {
        scan::peek(self.label, self.at)
    }

    // Whether the label and another that goes on at `other` are surely not equal.
    pub fn is_apart_from(&self, other: &Place) -> bool
        ensures { result ≡ apart self.now.label.now other.now.label.now self.now.from other.now.from self.now.at other.now.at (get_or self.now.label.now self.now.at 0) (get_or other.now.label.now other.now.at 0) }
    {
        are_apart(
            self.label,
            other.label,
            self.from,
            other.from,
            self.at,
            other.at,
            self.byte(),
            other.byte(),
        )
    }
}

// Whether two labels are level, where they were read to `i` and `j` and the blanks there reach to `p` and `q`: both are over, or neither
// is and the gaps agree.
fn level_at(a: &[u8], b: &[u8], i: usize, j: usize, p: usize, q: usize) -> bool
    ensures { result ≡ level a.now b.now i j p q }
{
    let over = a.len() <= p;
    let gaps = gap_before(i, p) == gap_before(j, q);
    (over == (b.len() <= q)) & (over | gaps)
}

// The same at two places.
fn are_level(x: &Place, y: &Place) -> bool
    ensures { result ≡ level x.now.label.now y.now.label.now x.now.from y.now.from x.now.at y.now.at }
{
    level_at(x.label, y.label, x.from, y.from, x.at, y.at)
}

// ---- single bytes

// Whether one of two bytes is beyond ASCII.
fn is_beyond(x: u8, y: u8) -> bool
    ensures { result ≡ beyond x y }
{
    (ASCII < x) | (ASCII < y)
}

// Whether two bytes show that the labels that they begin are not equal: ASCII, no blanks, and unlike when folded.
pub fn are_unlike(x: u8, y: u8) -> bool
    ensures { result ≡ unlike x y }
{
    (32 < x)
        & (x <= ASCII)
        & ((32 < y) & (y <= ASCII))
        & (folding::lowered(x) != folding::lowered(y))
}

// Whether one and the same byte, no blank and at most `most`, stands at `i` and at `j`.
fn same_at(a: &[u8], b: &[u8], i: usize, j: usize, most: u8) -> bool
    ensures { result ≡ same most a.now b.now i j }
{
    if (a.len() <= i) | (b.len() <= j) {
        return false;
    }
    let x = a[i];
    let y = b[j];
    (x == y) & ((32 < x) & (x <= most))
}

// How many such bytes stand in both from `i` and `j` on.
fn count_on(a: &[u8], b: &[u8], i: usize, j: usize, most: u8) -> usize
    ensures { SameCount most a.now b.now i j result }
{
    let mut n = 0;
    while same_at(a, b, i + n, j + n, most) {
        n += 1;
    }
    n
}

// The same. It counts on what is left of both, where one test of each byte tells the end of either.
pub fn same_count(a: &[u8], b: &[u8], i: usize, j: usize, most: u8) -> usize
    ensures { SameCount most a.now b.now i j result }
{
    if !same_at(a, b, i, j, most) {
        return 0;
    }
    count_on(&a[i..], &b[j..], 0, 0, most)
}

// Whether a byte begins a character of two bytes that the table may have.
fn begins_pair(x: u8) -> bool
    ensures { result ≡ leads x }
{
    (0xC2 <= x) & (x <= 0xD4)
}

// How many bytes from `i` and `j` on are the same in both and no blanks; the last is left where it begins a character of two.
fn same_run(a: &[u8], b: &[u8], i: usize, j: usize) -> usize
    ensures { Passed a.now b.now i j result }
{
    let n = same_count(a, b, i, j, 255);
    if n == 0 {
        return 0;
    }
    if begins_pair(a[i + n - 1]) {
        return n - 1;
    }
    n
}

// ---- a step of comparing

// Whether two labels are surely not equal, where they were read to `i` and `j`, the blanks there reach to `p` and `q`, and `x` and `y` come
// next: they are not level, or ASCII bytes are unlike when folded.
pub fn are_apart(a: &[u8], b: &[u8], i: usize, j: usize, p: usize, q: usize, x: u8, y: u8) -> bool
    ensures { result ≡ apart a.now b.now i j p q x y }
{
    if !is_beyond(x, y) & (folding::lowered(x) != folding::lowered(y)) {
        return true;
    }
    !level_at(a, b, i, j, p, q)
}

// How many bytes both labels have in common there, where they are not apart; none where the table has to tell.
#[inline(always)]
pub fn shared(x: &Place, y: &Place) -> Option<usize>
    requires { Meets x.now.label.now y.now.label.now x.now.at y.now.at }
    ensures { IfSome result (λ n. Shared x.now.label.now y.now.label.now x.now.at y.now.at n) }
{
    if is_beyond(x.byte(), y.byte()) {
        let n = same_run(x.label, y.label, x.at, y.at);
        if n == 0 {
            return None;
        }
        return Some(n);
    }
    Some(1 + same_count(x.label, y.label, x.at + 1, y.at + 1, ASCII))
}

// Whether two labels are equal, where that can be told without the table; otherwise how far both were read.
fn same_or_places(a: &[u8], b: &[u8]) -> Result<bool, (usize, usize)>
    ensures told { IfOk result (λ answer. answer ≡ matches a.now b.now) }
    ensures left { IfErr result (λ at. equals (form_from a.now at.0) (form_from b.now at.1) ≡ matches a.now b.now) }
{
    if are_unlike(scan::peek(a, 0), scan::peek(b, 0)) {
        return Ok(false);
    }
    let mut i = same_count(a, b, 0, 0, ASCII);
    let mut j = i;
    loop {
        let x = Place::after(a, i);
        let y = Place::after(b, j);
        if x.is_apart_from(&y) {
            return Ok(false);
        }
        if x.is_over() {
            return Ok(true);
        }
        let Some(n) = shared(&x, &y) else {
            return Err((i, j));
        };
        i = x.at + n;
        j = y.at + n;
    }
}

// Whether two labels are equal, where that can be told without the table.
pub fn same_quick(a: &[u8], b: &[u8]) -> Option<bool>
    ensures { IfSome result (λ answer. answer ≡ matches a.now b.now) }
{
    same_or_places(a, b).ok()
}

// ---- with the table

// What is left of a label's compared form, byte by byte: the bytes of a folded character that are left, the first lowest, and what the
// label gives from `at` on.
#[derive(Clone, Copy)]
pub struct Form<'a> {
    table: Table,
    label: &'a [u8],
    at: usize,
    left: u64,
}

impl<'a> Form<'a> {
    // The form of what is left from `at` on, where the bytes of `left` come first.
    pub fn with_left(table: &'a Table, label: &'a [u8], at: usize, left: u64) -> Form<'a>
        ensures { form result.label.now result.at result.left ≡ form label.now at left }
    {
        Form {
            table: *table,
            label,
            at,
            left,
        }
    }

    // The same with no such bytes.
    pub fn after(table: &'a Table, label: &'a [u8], at: usize) -> Form<'a>
        ensures { form result.label.now result.at result.left ≡ form_from label.now at }
    {
        Form::with_left(table, label, at, 0)
    }
}

// A byte of a form, and what is left after it.
#[derive(Drop)]
struct Opened<'a> {
    byte: u8,
    rest: Form<'a>,
}

// What the character at `p` gives.
fn character_at<'a>(table: Table, s: &'a [u8], p: usize) -> Opened<'a>
    requires p_in_bounds { p < length s.now }
    requires p_value { blank (get_or s.now p 0) ≡ false }
    ensures label { result.rest.label.now ≡ s.now }
    ensures opens { Opens s.now p result.byte result.rest.at result.rest.left }
{
    let b = s[p];
    match folding::code_of(b, scan::peek(s, p + 1)) {
        Some(c) => {
            let word = table.word_of(c);
            Opened {
                byte: (word % 256) as u8,
                rest: Form {
                    table,
                    label: s,
                    at: p + 2,
                    left: word / 256,
                },
            }
        }
        None => Opened {
            byte: folding::lowered(b),
            rest: Form {
                table,
                label: s,
                at: p + 1,
                left: 0,
            },
        },
    }
}

impl<'a> Iterator for Form<'a> {
    type Item = u8;

    ghost next_gives = { YieldsFirst (λ f. form f.label.now f.at f.left) };

    ghost remaining = { item_count (λ f. form f.label.now f.at f.left) };

    fn next(&mut self) -> Option<u8> {
        if self.left != 0 {
            let byte = (self.left % 256) as u8;
            self.left /= 256;
            return Some(byte);
        }
        let place = Place::after(self.label, self.at);
        if place.is_over() {
            return None;
        }
        if place.has_gap() {
            self.at = place.at;
            return Some(b' ');
        }
        let Opened { byte, rest } = character_at(self.table, self.label, place.at);
        *self = rest;
        Some(byte)
    }
}

// Whether what is left of two labels from `from` and `to` on compares equal.
fn same_from(table: &Table, a: &[u8], b: &[u8], from: usize, to: usize) -> bool
    ensures { result ≡ equals (form_from a.now from) (form_from b.now to) }
{
    let mut i = from;
    let mut j = to;
    loop {
        let n = same_run(a, b, i, j);
        let x = Place::after(a, i + n);
        let y = Place::after(b, j + n);
        if !are_level(&x, &y) {
            return false;
        }
        if x.is_over() {
            return true;
        }
        let own = character_at(*table, a, x.at);
        let other = character_at(*table, b, y.at);
        if own.byte != other.byte {
            return false;
        }
        if own.rest.left != other.rest.left {
            return own.rest.cmp(other.rest).is_eq();
        }
        i = own.rest.at;
        j = other.rest.at;
    }
}

// Whether two labels are equal, with the table at hand.
pub fn same_folded(table: &Table, a: &[u8], b: &[u8]) -> bool
    ensures { result ≡ matches a.now b.now }
{
    same_from(table, a, b, 0, 0)
}

// What `same_from` tells. Out of line, so that what most labels need stays short.
#[inline(never)]
fn same_by_table(a: &[u8], b: &[u8], i: usize, j: usize) -> bool
    ensures { result ≡ equals (form_from a.now i) (form_from b.now j) }
{
    same_from(&Table::new(), a, b, i, j)
}

// ----

// Whether two labels are equal.
pub fn same_label(a: &[u8], b: &[u8]) -> bool
    ensures { result ≡ matches a.now b.now }
{
    match same_or_places(a, b) {
        Ok(same) => same,
        Err((i, j)) => same_by_table(a, b, i, j),
    }
}
