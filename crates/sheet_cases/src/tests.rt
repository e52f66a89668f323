//! Reading sheets: which are accepted and as what, and with which fault the others are refused. What several of the modules below
//! make use of stands here.
use machine::Numbered;
use rules::Rule;
use sheet::Layer::{self, Draft, Reader};
use sheet::Sheet;
use std::process::Abort;

mod accepting;
mod changing;
mod edges;
mod plain;
mod printing;

// A fault: the refusal's number, the line and the layer.
type Told = (u8, u32, Layer);

// What a rule is made of: the template's number, the cue A, the cue B and the count n.
type Terms = (u8, u8, u8, u8);

// A sheet with one rule a side.
const EXAMPLE: &[u8] =
    b"cues 3\nLOAD\nHOLD\nFLY\nleft 1\nresponse LOAD HOLD\nright 1\nchain-response LOAD HOLD\n";

// A sheet with three rules a side, none of which is about the last cue, line by line.
const LINES: [&[u8]; 12] = [
    b"cues 3",
    b"LOAD",
    b"HOLD",
    b"FLY",
    b"left 3",
    b"response LOAD HOLD",
    b"existence HOLD 2",
    b"init LOAD",
    b"right 3",
    b"absence HOLD 14",
    b"last LOAD",
    b"choice HOLD LOAD",
];

// The fault of a sheet, where it is not accepted.
fn told(sheet: &[u8]) -> Option<Told> {
    match Sheet::read(sheet) {
        Ok(_) => None,
        Err(fault) => Some((fault.refusal.number(), fault.line, fault.refusal.layer())),
    }
}

// What a rule is made of, read off the rule.
fn terms_of(rule: Rule) -> Terms {
    (rule.template().number(), rule.a(), rule.b(), rule.n())
}

// The layer that has a refusal of this number.
fn layer_of(number: u8) -> Layer {
    if number < 8 { Reader } else { Draft }
}

// A page on which texts are put one behind the other, as long as there is room.
#[derive(Clone, Copy)]
struct Page {
    bytes: [u8; 4096],
    length: usize,
}

impl Page {
    fn new() -> Page {
        Page {
            bytes: [0; 4096],
            length: 0,
        }
    }

    fn put(&mut self, text: &[u8]) {
        for byte in text {
            if let Some(place) = self.bytes.get_mut(self.length) {
                *place = *byte;
                self.length = self.length.saturating_add(1);
            }
        }
    }

    fn text(&self) -> &[u8] {
        self.bytes.get(..self.length).unwrap_or(&[])
    }
}

// These lines, each with its end.
fn written(lines: &[&[u8]]) -> Page {
    let mut page = Page::new();
    for line in lines {
        page.put(line);
        page.put(b"\n");
    }
    page
}

// Three texts, one behind the other.
fn joined(front: &[u8], middle: &[u8], back: &[u8]) -> Page {
    let mut page = Page::new();
    page.put(front);
    page.put(middle);
    page.put(back);
    page
}

// Puts a text in place of one line of the sheet with three rules a side, and expects that line to be refused with this number,
// or the sheet to be accepted.
fn try_line(rt: &impl Abort, line: u32, text: &[u8], expected: Option<u8>) {
    let mut page = Page::new();
    for (number, own) in (1..=12).zip(LINES) {
        page.put(if number == line { text } else { own });
        page.put(b"\n");
    }
    try_sheet(
        rt,
        page.text(),
        expected.map(|number| (number, line, layer_of(number))),
    );
}

// Expects a sheet to be refused with this fault, or accepted.
fn try_sheet(rt: &impl Abort, sheet: &[u8], expected: Option<Told>) {
    assert_eq!(rt; told(sheet), expected, "{sheet:?}");
    assert_eq!(rt; plain::told(sheet), expected, "{sheet:?}");
}
