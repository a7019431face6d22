// The enquiry: the destination that a note and the sheet beside it give to a label.
#![tactic(auto)]

ghost use Rattle.std.specs.Prelude.{◌≡◌};
ghost use Rattle.texts.specs.Texts.{texts};
ghost use Rattle.enquiry.specs.Enquiry.{of_fault, number_of, value_of, named_of};
ghost use Rattle.enquiry.specs.Reading.{good_label, answer_of, enquiry_of};
ghost use Rattle.enquiry.specs.Promise.{Resolved};

use texts::Fault;
use walk::Cursor;

// A destination: the number of its text, which C is told, and its start and end there.
#[derive(Clone, Copy)]
pub struct Destination {
    pub text: usize,
    pub start: usize,
    pub end: usize,
}

// A refusal, 1 and 2 with their text and what is returned with it.
#[derive(Clone, Copy)]
pub enum Refusal {
    Long(usize, usize),
    Bad(usize, usize),
    NotLabel,
    Undefined,
}

impl From<Fault> for Refusal {
    ghost from_gives = { λ fault refusal. refusal ≡ of_fault fault };

    fn from(fault: Fault) -> Refusal {
        match fault {
            Fault::Long(text, length) => Refusal::Long(text, length),
            Fault::Bad(text, place) => Refusal::Bad(text, place),
        }
    }
}

// The answer's number, as `notice_resolve` gives it to C.
pub fn number(e: Result<Destination, Refusal>) -> u64
    ensures { result ≡ number_of e }
{
    match e {
        Ok(_) => 0,
        Err(Refusal::Long(_, _)) => 1,
        Err(Refusal::Bad(_, _)) => 2,
        Err(Refusal::NotLabel) => 8,
        Err(Refusal::Undefined) => 7,
    }
}

// What is returned with the number.
pub fn value(e: Result<Destination, Refusal>) -> u64
    ensures { result ≡ value_of e }
{
    match e {
        Ok(destination) => destination.start as u64,
        Err(Refusal::Long(_, length)) => length as u64,
        Err(Refusal::Bad(_, place)) => place as u64,
        Err(Refusal::NotLabel) => 0,
        Err(Refusal::Undefined) => 0,
    }
}

// The text that the answer names.
pub fn named(e: Result<Destination, Refusal>) -> u64
    ensures { result ≡ named_of e }
{
    match e {
        Ok(destination) => destination.text as u64,
        Err(Refusal::Long(text, _)) => text as u64,
        Err(Refusal::Bad(text, _)) => text as u64,
        Err(Refusal::NotLabel) => 0,
        Err(Refusal::Undefined) => 0,
    }
}

// Whether the bytes are exactly one label, and good text.
#[tactic(auto, unfolding(crate::specs::Reading::good_label))]
fn good_label(label: &[u8]) -> bool
    ensures { result ≡ good_label label.now }
{
    label::is_label(label) && text::first_bad(label).is_none()
}

// The destination of the first definition in `s`, the text with this number, that has an equal label. As in `row`'s lookup, the project's rule
// names a labelled loop, so it is no `while let`: `continue` passes an unequal definition, and `break` yields the first equal one.
#[tactic(auto, using(crate::proofs::Search::stands, crate::proofs::Search::none_equal, crate::proofs::Search::label_ordered, crate::proofs::Search::label_inside, crate::proofs::Search::less, crate::proofs::Search::equal))]
fn find(s: &[u8], text: usize, label: &[u8]) -> Option<Destination>
    ensures { result ≡ answer_of text s.now label.now }
{
    let mut c = Cursor { at: 0, end: 0 };
    'definitions: loop {
        let Some(next) = walk::next_definition(s, c) else {
            break 'definitions None;
        };
        let d = next.definition;
        if !alike::same_label(&s[d.label.start..d.label.end], label) {
            c = next.after;
            continue 'definitions;
        }
        break 'definitions Some(Destination {
            text,
            start: d.destination.start,
            end: d.destination.end,
        });
    }
}

// The answer for the bytes of a label, without its brackets. The note's definitions come before the sheet's.
#[tactic(auto, using(crate::proofs::Steps::refused_label, crate::proofs::Steps::found_own))]
pub fn enquire(note: &[u8], sheet: &[u8], label: &[u8]) -> Result<Destination, Refusal>
    ensures { result ≡ enquiry_of (texts note.now sheet.now) label.now }
{
    texts::check(note, sheet)?;
    if !good_label(label) {
        return Err(Refusal::NotLabel);
    }
    if let Some(own) = find(note, texts::NOTE, label) {
        return Ok(own);
    }
    find(sheet, texts::SHEET, label).ok_or(Refusal::Undefined)
}

// Hands back the destination as a part of the text that defines the label, and stores the answer's number, its value and that text's
// number beside it.
pub fn resolve<'a>(note: &'a [u8], sheet: &'a [u8], label: &[u8], answer: &mut [u64; 3]) -> &'a [u8]
    ensures { Resolved (texts note.now sheet.now) label.now note.entry.ref_ptr sheet.entry.ref_ptr (texts note.exit.now sheet.exit.now) label.exit.now answer.new result.now result.ref_ptr }
{
    let e = enquire(note, sheet, label);
    *answer = [number(e), value(e), named(e)];
    let Ok(destination) = e else {
        return &note[..0];
    };
    if destination.text == texts::NOTE {
        return &note[destination.start..destination.end];
    }
    &sheet[destination.start..destination.end]
}
