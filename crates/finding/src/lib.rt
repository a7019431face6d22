// The quick lookup of a label, in an index that is built when it pays. The slow lookup is its meaning: it finds the same row, and none exactly when
// the slow one finds none.
#![tactic(auto)]

ghost use Rattle.std.specs.Prelude.{◌≡◌};
ghost use Rattle.row.specs.Listing.{row_with};
ghost use Rattle.index.specs.Index.{Covers};
ghost use Rattle.index.specs.Rows.{ReadyFor};

use indexing::Arranged;
use row::Definitions;
use searching::Sought;

// How often a label is looked up without an index before one is built: to build it takes as long as some four slow lookups.
const PATIENCE: u32 = 3;

// The first row whose label equals `label`, by an index in which every row has an entry.
pub fn lookup<'a>(rows: &Arranged<'a>, label: &'a [u8]) -> Option<usize>
    requires { Covers rows.now.definitions.now.count rows.now.index.now }
    ensures { result ≡ row_with rows.now.definitions.now label.now }
{
    let sought = Sought::new(label);
    let from = sought.window(rows);
    match searching::bound(rows, &sought, from) {
        Ok(at) => Some(rows.entry(at).row()),
        Err(_) => None,
    }
}

// Counts a lookup without an index, and builds one after so many.
fn count_try<'a>(d: &Definitions<'a>, index: &mut [u32])
    requires { ReadyFor d.now index.old }
    ensures { ReadyFor d.now index.new }
{
    let tried = buckets::number_at(index, 0);
    if tried < PATIENCE {
        scan::put(index, 0, tried + 1);
        return;
    }
    if tried == PATIENCE {
        building::build(d, index);
    }
}

// The first row whose label equals `label`, by the index that is lent where it holds these rows.
pub fn find<'a>(d: &Definitions<'a>, index: &mut [u32], label: &[u8]) -> Option<usize>
    requires ready { ReadyFor d.now index.old }
    ensures value { result ≡ row_with d.now label.now }
    ensures ready_2 { ReadyFor d.now index.new }
{
    if buckets::number_at(index, 0) == indexing::BUILT {
        let rows = Arranged {
            definitions: &*d,
            index: &*index,
        };
        return lookup(&rows, label);
    }
    count_try(d, index);
    row::lookup(d, label)
}
