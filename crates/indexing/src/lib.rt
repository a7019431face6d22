// The entries of an index, and whether they are in order and whole.
#![tactic(auto)]

mod arranged;
mod keyed;

ghost use Rattle.std.specs.Prelude.{◌≡◌, true, ◌+◌, ◌≤◌, ◌<◌, ◌^◌, length};
ghost use Rattle.texts.specs.Texts.{texts};
ghost use Rattle.row.specs.Listing.{texts_of};
ghost use Rattle.index.specs.Index.{rows_limit, entry_of, row_in, key_in, base, entry_at, IsEntry, Stands, Covers};
ghost use Rattle.index.specs.Rows.{IsEntryOf, BeforeIn, SortedIn};
ghost use Rattle.indexing.specs.Building.{rows, Entries};
ghost use Rattle.indexing.specs.Rows.{FollowsIn};

pub use arranged::Arranged;
pub use keyed::Keyed;
use row::Definitions;
use std::cmp::Ordering;

// The most rows that an index may have. A note and a sheet have 5,461 definitions each at the most: `[a]:b` and an LF are six bytes.
pub const ROWS: usize = 10922;

// More than that.
const LIMIT: u32 = 16384;

// What the first number of an index says: it holds the rows. It is a number, since an index is lent as 32-bit numbers alone.
pub const BUILT: u32 = 4294967295;

// The first number of one that can't be built.
pub const GIVEN_UP: u32 = 4294967294;

// An entry of an index: the key of a row's label, and the row. Both are in one number: an index is lent as 32-bit numbers.
#[derive(Clone, Copy, PartialEq, Eq)]
pub struct Entry {
    pub number: u32,
}

impl Entry {
    pub fn new(key: u32, row: usize) -> Entry
        requires key_bound { key < 2 ^ 18 }
        requires row_bound { row < rows_limit }
        ensures { result.number ≡ entry_of key row }
    {
        Entry {
            number: key * LIMIT + row as u32,
        }
    }

    pub fn row(self) -> usize
        ensures { result ≡ row_in self.number }
    {
        (self.number % LIMIT) as usize
    }

    pub fn key(self) -> u32
        ensures { result ≡ key_in self.number }
    {
        self.number / LIMIT
    }
}

impl<'a> Arranged<'a> {
    // The entry at place `p`.
    pub fn entry(&self, p: usize) -> Entry
        requires { p < self.now.definitions.now.count }
        ensures { result.number ≡ entry_at self.now.index.now p }
    {
        Entry {
            number: self.index[buckets::BASE + p],
        }
    }
}

// The entry of each row.
pub fn fill_entries<'a>(d: &Definitions<'a>, entries: &mut [u32; ROWS])
    requires count_le_rows { d.now.count ≤ rows }
    requires entries_len { length entries.old ≡ rows }
    ensures { Entries (texts_of d.now) d.now.table.now d.now.count entries.new }
{
    for k in 0..d.count {
        entries[k] = Entry::new(ranking::key_of(d.label(k)), k).number;
    }
}

// Whether a number is the entry of its row.
pub fn is_entry<'a>(
    note: &'a [u8],
    sheet: &'a [u8],
    table: &[u32],
    count: usize,
    entries: &[u32; ROWS],
    e: u32,
) -> bool
    requires count_le_rows { count ≤ rows }
    requires entries { Entries (texts note.now sheet.now) table.now count entries.now }
    ensures { result ≡ true → IsEntry (texts note.now sheet.now) table.now count e }
{
    let k = Entry { number: e }.row();
    if count <= k {
        return false;
    }
    entries[k] == e
}

// Whether the row of an entry comes before that of another.
pub fn comes_before<'a>(d: &Definitions<'a>, one: Entry, other: Entry) -> bool
    requires entry { IsEntryOf d.now one.number }
    requires entry_2 { IsEntryOf d.now other.number }
    ensures { result ≡ true → BeforeIn d.now (row_in one.number) (row_in other.number) }
{
    let g = one.key();
    let h = other.key();
    if g < h {
        return true;
    }
    if h < g {
        return false;
    }
    let k = one.row();
    let l = other.row();
    match ranking::compare(d.label(k), d.label(l)) {
        Ordering::Less => true,
        Ordering::Equal => k < l,
        Ordering::Greater => false,
    }
}

impl<'a> Keyed<'a> {
    // Whether this is the entry of its row.
    pub fn is_entry(&self, e: Entry) -> bool
        ensures { result ≡ true → IsEntryOf self.now.definitions.now e.number }
    {
        let d = self.definitions;
        is_entry(d.note, d.sheet, d.table, d.count, self.entries, e.number)
    }

    // Whether the number at place `p` is an entry, and comes after the one before it.
    fn follows(&self, index: &[u32], p: usize) -> bool
        requires { base + p < length index.now }
        ensures { result ≡ true → FollowsIn self.now.definitions.now index.now p }
    {
        let e = Entry {
            number: index[buckets::BASE + p],
        };
        if !self.is_entry(e) {
            return false;
        }
        if p == 0 {
            return true;
        }
        let d = Entry {
            number: index[buckets::BASE + p - 1],
        };
        if !self.is_entry(d) {
            return false;
        }
        comes_before(self.definitions, d, e)
    }

    // Whether the numbers are entries, each before the next.
    pub fn is_sorted(&self, index: &[u32]) -> bool
        requires { base + self.now.definitions.now.count ≤ length index.now }
        ensures { result ≡ true → SortedIn self.now.definitions.now index.now }
    {
        for p in 0..self.definitions.count {
            if !self.follows(index, p) {
                return false;
            }
        }
        true
    }
}

// Stores for each row the place of its entry.
pub fn note_places(count: usize, index: &[u32], places: &mut [u32; ROWS])
    requires { count ≤ rows }
{
    for p in 0..count {
        let e = Entry {
            number: buckets::number_at(index, buckets::BASE + p),
        };
        let k = e.row();
        if k < ROWS {
            places[k] = p as u32;
        }
    }
}

// Whether the entry of row `k` stands where `places` says.
fn stands(count: usize, index: &[u32], places: &[u32; ROWS], k: usize) -> bool
    requires count_in_bounds { base + count ≤ length index.now }
    requires k_lt_rows { k < rows }
    ensures { result ≡ true → Stands count index.now k }
{
    let p = places[k] as usize;
    if count <= p {
        return false;
    }
    let e = Entry {
        number: index[buckets::BASE + p],
    };
    e.row() == k
}

// Whether every row has an entry.
pub fn is_whole(count: usize, index: &[u32], places: &[u32; ROWS]) -> bool
    requires count_in_bounds { base + count ≤ length index.now }
    requires count_le_rows { count ≤ rows }
    ensures { result ≡ true → Covers count index.now }
{
    for k in 0..count {
        if !stands(count, index, places, k) {
            return false;
        }
    }
    true
}
