// A paragraph that is read in room made at once.
use super::*;
use span::Span;

// The standard's example 493, a link with a title; its row is counted by hand. There is a mark for each byte, and one more.
#[test]
fn a_link_is_read_in_it(rt: HostRuntime) {
    let note = b"[link](/uri \"title\")";
    let definitions = Definitions {
        note,
        sheet: b"",
        table: &[],
        count: 0,
    };
    let mut spans = [0; Span::WIDTH];
    let mut lent = Lent::<21>::new();
    let answer = read_paragraph(
        0,
        note.len(),
        &definitions,
        &mut [],
        &mut spans,
        Walk::first(),
        &mut lent.stack,
        &mut lent.runs,
        &mut lent.marks,
    );
    assert!(rt; answer.is_ok());
    assert_eq!(rt; spans, [2, 0, 20, 1, 5, 0, 7, 11, 13, 18, 1]);
}
