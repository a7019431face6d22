// The rows of a table with an entry for each.
ghost use Rattle.std.specs.Prelude.{◌≤◌};
ghost use Rattle.row.specs.Listing.{texts_of};
ghost use Rattle.indexing.specs.Building.{rows, Entries};

use row::Definitions;

// The rows of a table of which an index can be built, and the entry of each, at its row.
#[derive(Clone, Copy)]
pub struct Keyed<'a> {
    pub definitions: &'a Definitions<'a>,
    pub entries: &'a [u32; crate::ROWS],
    pub ghost few: { definitions.now.count ≤ rows },
    pub ghost keyed: { Entries (texts_of definitions.now) definitions.now.table.now definitions.now.count entries.now },
}
