// The first definition that conflicts, by an index: a label is looked up only where it can repeat one before it. The slow search is the meaning.
#![tactic(auto)]

ghost use Rattle.std.specs.Prelude.{◌≡◌, true, ◌+◌, ◌<◌};
ghost use Rattle.row.specs.Listing.{texts_of};
ghost use Rattle.index.specs.Index.{row_at, Covers};
ghost use Rattle.index.specs.Rows.{HoldsAll, ReadyFor};
ghost use Rattle.conflict.specs.Reading.{first_conflict};
ghost use Rattle.conflict.specs.Rows.{HoldsJoined};
ghost use Rattle.repeats.specs.Repeats.{New, conflicts_at, Least};

use indexing::Arranged;
use row::Definitions;

// So few rows are compared without an index.
const FEW: usize = 16;

// Whether the key at place `p` is not that of the entry before it.
fn is_new<'a>(rows: &Arranged<'a>, p: usize) -> bool
    requires { p < rows.now.definitions.now.count }
    ensures { result ≡ true → New rows.now.index.now p }
{
    p == 0 || rows.entry(p - 1).key() != rows.entry(p).key()
}

// Whether row `k`, which stands at place `p`, differs from the first row of equal label before it.
fn row_conflicts<'a>(rows: &Arranged<'a>, p: usize, k: usize) -> bool
    requires joined { HoldsJoined rows.now.definitions.now }
    requires covers { Covers rows.now.definitions.now.count rows.now.index.now }
    requires p_lt_count { p < rows.now.definitions.now.count }
    requires k_value { k ≡ row_at rows.now.index.now p }
    ensures { result ≡ conflicts_at (texts_of rows.now.definitions.now) k }
{
    if is_new(rows, p) {
        return false;
    }
    let d = rows.definitions;
    match finding::lookup(rows, d.label(k)) {
        Some(j) => j < k && conflict::rows_differ(d, j, k),
        None => false,
    }
}

// The row at place `p` if it conflicts and is less than `best`, else `best`.
fn least<'a>(rows: &Arranged<'a>, p: usize, best: usize) -> usize
    requires joined { HoldsJoined rows.now.definitions.now }
    requires covers { Covers rows.now.definitions.now.count rows.now.index.now }
    requires p_lt_count { p < rows.now.definitions.now.count }
    requires least { Least (texts_of rows.now.definitions.now) rows.now.definitions.now.count rows.now.index.now p best }
    ensures { Least (texts_of rows.now.definitions.now) rows.now.definitions.now.count rows.now.index.now (p + 1) result }
{
    let k = rows.entry(p).row();
    if best <= k {
        return best;
    }
    if row_conflicts(rows, p, k) {
        return k;
    }
    best
}

// The first definition that conflicts, by an index in which every row has an entry.
fn by_index<'a>(rows: &Arranged<'a>) -> Option<usize>
    requires joined { HoldsJoined rows.now.definitions.now }
    requires covers { Covers rows.now.definitions.now.count rows.now.index.now }
    ensures { result ≡ first_conflict (texts_of rows.now.definitions.now) }
{
    let count = rows.definitions.count;
    let mut best = count;
    for p in 0..count {
        best = least(rows, p, best);
    }
    if best < count {
        return Some(best);
    }
    None
}

// Builds the index if it does not hold the rows yet, and tells whether it does.
fn is_built<'a>(d: &Definitions<'a>, index: &mut [u32]) -> bool
    requires { ReadyFor d.now index.old }
    ensures holds { result ≡ true → HoldsAll d.now index.new }
    ensures ready { ReadyFor d.now index.new }
{
    if buckets::number_at(index, 0) == indexing::BUILT {
        return true;
    }
    building::build(d, index);
    buckets::number_at(index, 0) == indexing::BUILT
}

// The first of the definitions, the joined list, that differs from an earlier one of equal label. The index is built where it pays.
pub fn first_conflict<'a>(d: &Definitions<'a>, index: &mut [u32]) -> Option<usize>
    requires joined { HoldsJoined d.now }
    requires ready { ReadyFor d.now index.old }
    ensures value { result ≡ first_conflict (texts_of d.now) }
    ensures ready_2 { ReadyFor d.now index.new }
{
    if d.count < FEW {
        return conflict::first_slow(d);
    }
    if is_built(d, index) {
        let rows = Arranged {
            definitions: &*d,
            index: &*index,
        };
        return by_index(&rows);
    }
    conflict::first_slow(d)
}
