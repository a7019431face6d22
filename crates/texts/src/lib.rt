// The two texts that are lent, the note and the sheet beside it: their numbers, and refusals 1 and 2 over both.
#![tactic(auto)]

ghost use Rattle.std.specs.Prelude.{◌≡◌};
ghost use Rattle.texts.specs.Texts.{texts};
ghost use Rattle.texts.specs.Reading.{checked};
ghost use Rattle.texts.specs.Promise.{Promise};

// The number of each text in answers and rows. Numbers and no enum: C reads them in the rows that `notice_read` fills, and in the answers.
pub const NOTE: usize = 0;

pub const SHEET: usize = 1;

// Refusal 1 or 2: the text's number, and what is returned with it.
#[derive(Clone, Copy)]
pub enum Fault {
    Long(usize, usize),
    Bad(usize, usize),
}

// The length and bytes of the text with this number.
fn check_text(number: usize, text: &[u8]) -> Result<(), Fault>
    ensures { result ≡ checked number text.now }
{
    match text::check(text) {
        Ok(()) => Ok(()),
        Err(text::Fault::Long(n)) => Err(Fault::Long(number, n)),
        Err(text::Fault::Bad(k)) => Err(Fault::Bad(number, k)),
    }
}

// The note's length and bytes, and then the sheet's.
#[tactic(auto, using(crate::proofs::Claims::promised), unfolding(crate::specs::Reading::check_of))]
pub fn check(note: &[u8], sheet: &[u8]) -> Result<(), Fault>
    ensures { Promise (texts note.now sheet.now) result }
{
    check_text(NOTE, note)?;
    check_text(SHEET, sheet)
}
