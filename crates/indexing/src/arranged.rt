// An index whose entries are in order.
ghost use Rattle.index.specs.Rows.{SortedIn};
ghost use Rattle.index.specs.Props.{Sorted-prop};

use row::Definitions;

// An index of the rows of a table, whose entries are those of rows, each before the next.
#[derive(Clone, Copy)]
pub struct Arranged<'a> {
    pub definitions: &'a Definitions<'a>,
    pub index: &'a [u32],
    pub ghost sorted: { SortedIn definitions.now index.now } by { Sorted-prop _ _ _ _ },
}
