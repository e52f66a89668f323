//! Sheets that are accepted, cut short and changed in all small ways, beside the plain reading.
use super::{EXAMPLE, LINES, joined, layer_of, plain, told, try_sheet, written};
use std::process::Abort;

// Expects the plain reading to tell the same of a sheet. Answers whether it is accepted.
fn agrees(rt: &impl Abort, sheet: &[u8]) -> bool {
    let fault = told(sheet);
    assert_eq!(rt; fault, plain::told(sheet), "{sheet:?}");
    fault.is_none()
}

// Cut short anywhere, a sheet lacks the line in which the cut falls.
fn try_cuts(rt: &impl Abort, sheet: &[u8]) {
    try_sheet(rt, sheet, None);
    let mut line: u32 = 1;
    for (length, byte) in sheet.iter().enumerate() {
        try_sheet(rt, &sheet[..length], Some((2, line, layer_of(2))));
        if *byte == b'\n' {
            line = line.saturating_add(1);
        }
    }
}

#[test]
fn a_sheet_is_refused_wherever_it_is_cut_short(rt: HostRuntime) {
    try_cuts(&rt, EXAMPLE);
    try_cuts(&rt, written(&LINES).text());
}

// What bytes are changed to; the last leaves them out.
const BYTES: [&[u8]; 9] = [b"\n", b" ", b"A", b"a", b"0", b"1", b"-", b"\xff", b""];

// Puts a text between two others. Answers 1 if that sheet is accepted, and else 0.
fn put(rt: &impl Abort, before: &[u8], text: &[u8], behind: &[u8]) -> u32 {
    u32::from(agrees(rt, joined(before, text, behind).text()))
}

// Changes a byte to a few others, leaves it out, doubles it, and puts it behind the next. Answers how many of these sheets are
// accepted.
fn change_byte(rt: &impl Abort, before: &[u8], own: u8, behind: &[u8]) -> u32 {
    let mut accepted = put(rt, before, &[own, own], behind);
    for text in &BYTES {
        accepted = accepted.saturating_add(put(rt, before, text, behind));
    }
    match behind {
        [next, rest @ ..] => accepted.saturating_add(put(rt, before, &[*next, own], rest)),
        [] => accepted,
    }
}

// Changes every byte so. Answers how many of all these sheets are accepted.
fn change_bytes(rt: &impl Abort, sheet: &[u8]) -> u32 {
    let mut accepted: u32 = 0;
    for (at, own) in sheet.iter().enumerate() {
        let more = change_byte(rt, &sheet[..at], *own, &sheet[at + 1..]);
        accepted = accepted.saturating_add(more);
    }
    accepted
}

// Counted by hand: a byte may stay as it is, the last name may be another, and some counts may.
#[test]
fn every_byte_is_changed(rt: HostRuntime) {
    let accepted = change_bytes(&rt, EXAMPLE);
    let more = change_bytes(&rt, written(&LINES).text());
    assert_eq!(rt; (accepted, more), (42, 58));
}

// Leaves out lines, doubles them, and puts any two in place of each other.
#[test]
fn every_line_is_moved(rt: HostRuntime) {
    for i in 0..LINES.len() {
        let (before, behind) = (written(&LINES[..i]), written(&LINES[i + 1..]));
        let own = written(&LINES[i..=i]);
        let without = joined(before.text(), b"", behind.text());
        let mut doubled = joined(before.text(), own.text(), own.text());
        doubled.put(behind.text());
        assert!(rt; !agrees(&rt, without.text()));
        assert!(rt; !agrees(&rt, doubled.text()));
        for j in 0..LINES.len() {
            let mut lines = LINES;
            lines.swap(i, j);
            let _ = agrees(&rt, written(&lines).text());
        }
    }
}
