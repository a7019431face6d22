// The rows of a definition table, with the texts in which their definitions stand.
ghost use Rattle.texts.specs.Texts.{texts};
ghost use Rattle.row.specs.Reading.{Fit};

// The first `count` rows of a definition table, and the texts in which their definitions stand.
#[derive(Clone, Copy)]
pub struct Definitions<'a> {
    pub note: &'a [u8],
    pub sheet: &'a [u8],
    pub table: &'a [u32],
    pub count: usize,
    pub ghost fit: { Fit (texts note.now sheet.now) table.now count },
}

impl<'a> Definitions<'a> {
    ghost use Rattle.std.specs.Prelude.{◌≡◌, ◌<◌};
    ghost use Rattle.row.specs.Listing.{label_in};

    // The label of row `k`, from the text that the row names.
    pub fn label(&self, k: usize) -> &'a [u8]
        requires { k < self.now.count }
        ensures { result.now ≡ label_in self.now k }
    {
        crate::label_at(
            self.note,
            self.sheet,
            self.table,
            k * crate::Definition::WIDTH,
        )
    }
}
