// Definitions that conflict: equal labels, and another destination or title.
#![tactic(auto)]

ghost use Rattle.std.specs.Prelude.{◌≡◌, ◌<◌, length, take};
ghost use Rattle.texts.specs.Texts.{text_of};
ghost use Rattle.row.specs.Row.{whole_rows};
ghost use Rattle.row.specs.Reading.{text_at, definition_at, listed_at};
ghost use Rattle.row.specs.Listing.{texts_of};
ghost use Rattle.joined.specs.Reading.{joined, Listing};
ghost use Rattle.conflict.specs.Conflict.{entry};
ghost use Rattle.conflict.specs.Reading.{differ, conflicts, first_conflict, PartsWithin};
ghost use Rattle.conflict.specs.Rows.{HoldsJoined};

use row::{Definitions, Range};

// Whether the definitions of rows `j` and `k` differ in destination, in title or in whether they have one.
pub fn rows_differ<'a>(d: &Definitions<'a>, j: usize, k: usize) -> bool
    requires j_bound { j < whole_rows d.now.table.now }
    requires k_bound { k < whole_rows d.now.table.now }
    requires parts_within { PartsWithin (text_of (texts_of d.now) (text_at d.now.table.now j)) (definition_at d.now.table.now j) }
    requires parts_within_2 { PartsWithin (text_of (texts_of d.now) (text_at d.now.table.now k)) (definition_at d.now.table.now k) }
    ensures { result ≡ differ (texts_of d.now) (listed_at d.now.table.now j) (listed_at d.now.table.now k) }
{
    let a = row::definition_at(d.table, j);
    let b = row::definition_at(d.table, k);
    let none = Range::absent();
    if (a.title == none) != (b.title == none) {
        return true;
    }
    let x = row::text_at(d.table, j);
    let y = row::text_at(d.table, k);
    let first = row::part_of(d.note, d.sheet, x, a.destination);
    let second = row::part_of(d.note, d.sheet, y, b.destination);
    if first != second {
        return true;
    }
    let first = row::part_of(d.note, d.sheet, x, a.title);
    let second = row::part_of(d.note, d.sheet, y, b.title);
    first != second
}

// Whether the definition of row `k` differs from the first one of equal label before it.
fn row_conflicts<'a>(d: &Definitions<'a>, k: usize) -> bool
    requires joined { HoldsJoined d.now }
    requires k_in_bounds { k < d.now.count }
    ensures { result ≡ conflicts (texts_of d.now) (take k (joined (texts_of d.now))) (entry (joined (texts_of d.now)) k) }
{
    let before = Definitions {
        note: d.note,
        sheet: d.sheet,
        table: d.table,
        count: k,
    };
    match row::lookup(&before, d.label(k)) {
        Some(j) => rows_differ(d, j, k),
        None => false,
    }
}

// The first of the definitions, the joined list, that differs from an earlier one of equal label. Each is looked up among the rows before it: that
// is the meaning. `repeats` finds the same row sooner.
pub fn first_slow<'a>(d: &Definitions<'a>) -> Option<usize>
    requires { HoldsJoined d.now }
    ensures { result ≡ first_conflict (texts_of d.now) }
{
    for k in 0..d.count {
        if row_conflicts(d, k) {
            return Some(k);
        }
    }
    None
}
