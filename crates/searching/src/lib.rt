// Where a label stands in an index: its bucket's places, and the search among them.
#![tactic(auto)]

mod sought;

ghost use Rattle.std.specs.Prelude.{◌≡◌, true, ◌≤◌, ◌<◌, IfOk, IfErr};
ghost use Rattle.texts.specs.Texts.{texts};
ghost use Rattle.matching.specs.Reading.{compared, matches};
ghost use Rattle.order.specs.Order.{key};
ghost use Rattle.index.specs.Index.{key_in, entry_at, Sorted, Front, Back, Window};
ghost use Rattle.searching.specs.Search.{rank_at, BackAt, WindowAt, FoundAt, MissingAt};

use indexing::{Arranged, Entry};
pub use sought::Sought;
use std::cmp::Ordering;

// Places in an index from `lo` to `hi`.
#[derive(Clone, Copy)]
pub struct Places {
    pub lo: usize,
    pub hi: usize,
}

impl<'a> Sought<'a> {
    pub fn new(label: &'a [u8]) -> Sought<'a>
        ensures { result.label.now ≡ label.now }
    {
        Sought {
            label,
            key: ranking::key_of(label),
        }
    }

    // The places where the label can stand.
    pub fn window(&self, rows: &Arranged<'a>) -> Places
        ensures window { WindowAt rows.now self.now result.lo result.hi }
        ensures back { BackAt rows.now self.now result.hi }
    {
        let d = rows.definitions;
        let Sought { label, key, .. } = *self;
        window(d.note, d.sheet, d.table, d.count, rows.index, label, key)
    }
}

// Whether two labels are equal. Most that are looked up are the same bytes as a definition's.
fn are_equal(a: &[u8], b: &[u8]) -> bool
    ensures { result ≡ matches a.now b.now }
{
    a == b || alike::same_label(a, b)
}

// How the row at place `p` stands to the label.
fn rank_at<'a>(rows: &Arranged<'a>, p: usize, sought: &Sought<'a>) -> Ordering
    requires { p < rows.now.definitions.now.count }
    ensures { result ≡ rank_at rows.now sought.now p }
{
    let e = rows.entry(p);
    let own = e.key();
    if own < sought.key {
        return Ordering::Less;
    }
    if sought.key < own {
        return Ordering::Greater;
    }
    let label = rows.definitions.label(e.row());
    if are_equal(label, sought.label) {
        return Ordering::Equal;
    }
    ranking::compare(label, sought.label)
}

// The first place of `from` whose row has the label, or the one where it belongs. The library's `binary_search_by` gives any place that is
// equal, and after its `partition_point` the place found has to be compared again.
pub fn bound<'a>(rows: &Arranged<'a>, sought: &Sought<'a>, from: Places) -> Result<usize, usize>
    requires window { WindowAt rows.now sought.now from.lo from.hi }
    requires back { BackAt rows.now sought.now from.hi }
    ensures found { IfOk result (FoundAt rows.now sought.now) }
    ensures missing { IfErr result (MissingAt rows.now sought.now) }
{
    let Places { mut lo, mut hi } = from;
    let mut same = false;
    while lo < hi {
        let mid = lo + (hi - lo) / 2;
        match rank_at(rows, mid, sought) {
            Ordering::Less => lo = mid + 1,
            Ordering::Equal => {
                hi = mid;
                same = true;
            }
            Ordering::Greater => {
                hi = mid;
                same = false;
            }
        }
    }
    if same { Ok(lo) } else { Err(lo) }
}

// The key of the row at place `p`.
pub fn key_at<'a>(
    note: &'a [u8],
    sheet: &'a [u8],
    table: &[u32],
    count: usize,
    index: &[u32],
    p: usize,
) -> u32
    requires sorted { Sorted (texts note.now sheet.now) table.now count index.now }
    requires p_lt_count { p < count }
    ensures { result ≡ key_in (entry_at index.now p) }
{
    let e = Entry {
        number: index[buckets::BASE + p],
    };
    e.key()
}

// Whether the keys show that what stands just before `lo` is less than `label`, whose key is `h`.
fn front_is_less<'a>(
    note: &'a [u8],
    sheet: &'a [u8],
    table: &[u32],
    count: usize,
    index: &[u32],
    label: &[u8],
    h: u32,
    lo: usize,
) -> bool
    requires sorted { Sorted (texts note.now sheet.now) table.now count index.now }
    requires h_value { h ≡ key (compared label.now) }
    requires lo_le_count { lo ≤ count }
    ensures { result ≡ true → Front (texts note.now sheet.now) table.now index.now (compared label.now) lo }
{
    if lo == 0 {
        return true;
    }
    key_at(note, sheet, table, count, index, lo - 1) < h
}

// Whether the keys show that what stands at `hi` is greater than `label`, whose key is `h`.
fn back_is_greater<'a>(
    note: &'a [u8],
    sheet: &'a [u8],
    table: &[u32],
    count: usize,
    index: &[u32],
    label: &[u8],
    h: u32,
    hi: usize,
) -> bool
    requires sorted { Sorted (texts note.now sheet.now) table.now count index.now }
    requires h_value { h ≡ key (compared label.now) }
    ensures { result ≡ true → Back (texts note.now sheet.now) table.now count index.now (compared label.now) hi }
{
    if count <= hi {
        return true;
    }
    h < key_at(note, sheet, table, count, index, hi)
}

// Where the bucket before this one ends.
fn bucket_start(index: &[u32], b: usize) -> usize {
    if b == 0 {
        return 0;
    }
    buckets::number_at(index, b) as usize
}

// The places where `label`, whose key is `h`, can stand: those of its bucket, where the keys bear it out.
pub fn window<'a>(
    note: &'a [u8],
    sheet: &'a [u8],
    table: &[u32],
    count: usize,
    index: &[u32],
    label: &[u8],
    h: u32,
) -> Places
    requires sorted { Sorted (texts note.now sheet.now) table.now count index.now }
    requires h_value { h ≡ key (compared label.now) }
    ensures window { Window (texts note.now sheet.now) table.now count index.now (compared label.now) result.lo result.hi }
    ensures back { Back (texts note.now sheet.now) table.now count index.now (compared label.now) result.hi }
{
    let b = (h / 128) as usize;
    let lo = bucket_start(index, b);
    let hi = bucket_start(index, b + 1);
    let all = Places { lo: 0, hi: count };
    if (hi < lo) | (count < hi) {
        return all;
    }
    if !front_is_less(note, sheet, table, count, index, label, h, lo) {
        return all;
    }
    if !back_is_greater(note, sheet, table, count, index, label, h, hi) {
        return all;
    }
    Places { lo, hi }
}
