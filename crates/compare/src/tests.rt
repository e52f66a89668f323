//! Sheets that come slowly or not at all, and outcomes that are taken slowly or not at all. What the reader of a file or the writer of
//! one does when it fails no contract can say, so it is run.
use comparison::answer;
use std::io;
use std::io::{ErrorKind, Read, Write};
use std::process::Abort;

// A reader that hands out a text a few bytes at a time, and is interrupted before each time. Behind the text it fails in this way, if
// it is to.
#[derive(Drop)]
struct Slow<'a> {
    text: &'a [u8],
    pace: usize,
    interrupted: bool,
    fails: Option<ErrorKind>,
}

impl Read for Slow<'_> {
    fn read(&mut self, buffer: &mut [u8]) -> io::Result<usize> {
        self.interrupted = !self.interrupted;
        if self.interrupted {
            return Err(ErrorKind::Interrupted.into());
        }
        if let (true, Some(kind)) = (self.text.is_empty(), self.fails) {
            return Err(kind.into());
        }
        let count = self.pace.min(buffer.len()).min(self.text.len());
        let (given, rest) = self.text.split_at(count);
        buffer[..count].copy_from_slice(given);
        self.text = rest;
        Ok(count)
    }
}

// A writer that takes a byte at a time, as long as there is room.
#[derive(Drop)]
struct Page {
    bytes: [u8; 64],
    length: usize,
    room: usize,
}

impl Page {
    fn new(room: usize) -> Page {
        Page {
            bytes: [0; 64],
            length: 0,
            room,
        }
    }

    fn text(&self) -> &[u8] {
        self.bytes.get(..self.length).unwrap_or(&[])
    }
}

impl Write for Page {
    fn write(&mut self, text: &[u8]) -> io::Result<usize> {
        if self.length >= self.room {
            return Err(ErrorKind::StorageFull.into());
        }
        match (self.bytes.get_mut(self.length), text.first()) {
            (Some(place), Some(byte)) => {
                *place = *byte;
                self.length = self.length.saturating_add(1);
                Ok(1)
            }
            _ => Ok(0),
        }
    }

    fn flush(&mut self) -> io::Result<()> {
        Ok(())
    }
}

const SHEET: &[u8] = b"cues 1\nA\nleft 1\ninit A\nright 1\nexistence A 1\n";

const OUTCOME: &[u8] = b"left 0 1\n0\n";

// Expects that a reader and a page with so much room end well or not, with this text on the page.
fn try_answer(
    rt: &impl Abort,
    mut reader: Slow<'_>,
    room: usize,
    ends_well: bool,
    expected: &[u8],
) {
    let mut page = Page::new(room);
    let answered = answer(&mut reader, &mut page);
    assert_eq!(rt; answered.is_ok(), ends_well);
    assert_eq!(rt; page.text(), expected);
}

fn steady(text: &[u8], pace: usize) -> Slow<'_> {
    Slow {
        text,
        pace,
        interrupted: false,
        fails: None,
    }
}

fn failing(text: &[u8], pace: usize, kind: ErrorKind) -> Slow<'_> {
    Slow {
        fails: Some(kind),
        ..steady(text, pace)
    }
}

#[test]
fn a_sheet_may_come_slowly(rt: HostRuntime) {
    for pace in [1, 2, 7, 44, 45, 1000] {
        try_answer(&rt, steady(SHEET, pace), 64, true, OUTCOME);
    }
    try_answer(&rt, steady(b"", 1), 64, true, b"refused 2 1 reader\n");
}

// One byte more than a sheet may have is enough, and then nothing is asked of the reader any more, so it cannot fail.
#[test]
fn a_long_sheet_is_not_read_to_its_end(rt: HostRuntime) {
    let long = [b'A'; 20_000];
    for length in [16_385, 20_000] {
        let text = long.get(..length).unwrap_or(&[]);
        try_answer(&rt, steady(text, 5000), 64, true, b"refused 1 0 reader\n");
        let broken = failing(text, 5000, ErrorKind::ConnectionReset);
        try_answer(&rt, broken, 64, true, b"refused 1 0 reader\n");
    }
    let text = long.get(..16_384).unwrap_or(&[]);
    try_answer(&rt, steady(text, 5000), 64, true, b"refused 2 1 reader\n");
    let broken = failing(text, 5000, ErrorKind::ConnectionReset);
    try_answer(&rt, broken, 64, false, b"");
}

// It asks as often as it must: here more than 32,768 times, every other time in vain.
#[test]
fn a_long_sheet_may_come_byte_by_byte(rt: HostRuntime) {
    let long = [b'A'; 16_385];
    try_answer(&rt, steady(&long, 1), 64, true, b"refused 1 0 reader\n");
    let text = long.get(..16_384).unwrap_or(&[]);
    try_answer(&rt, steady(text, 1), 64, true, b"refused 2 1 reader\n");
}

// A sheet that breaks off because reading fails is not answered, not even where a whole one stands there.
#[test]
fn a_sheet_that_cannot_be_read_is_not_answered(rt: HostRuntime) {
    let kinds = [
        ErrorKind::ConnectionReset,
        ErrorKind::WouldBlock,
        ErrorKind::TimedOut,
        ErrorKind::UnexpectedEof,
    ];
    for kind in kinds {
        for length in [0, 1, 20, 44, 45] {
            let text = SHEET.get(..length).unwrap_or(&[]);
            try_answer(&rt, failing(text, 8, kind), 64, false, b"");
        }
    }
}

#[test]
fn an_outcome_that_cannot_be_printed_ends_in_an_error(rt: HostRuntime) {
    for room in 0..11 {
        let expected = OUTCOME.get(..room).unwrap_or(&[]);
        try_answer(&rt, steady(SHEET, 8), room, false, expected);
    }
    try_answer(&rt, steady(SHEET, 8), 11, true, OUTCOME);
}
