//! What is printed of faults, refusals and layers.
use super::joined;
use book::DraftRefusal::{self, CountOutside, SameCue};
use machine::Numbered;
use sheet::ReaderRefusal::{
    self, LeftOver, NameTwice, NoSuchName, NoSuchWord, NotInForm, SectionCountOutside, TooLong,
};
use sheet::{Fault, Refusal, Sheet};
use std::alloc::Global;
use std::fmt::Display;
use std::process::Abort;
use std::test::Fail;

// What the reader turns down, with its number and what is printed of it.
const BY_READER: [(ReaderRefusal, u8, &[u8]); 7] = [
    (TooLong, 1, b"the sheet has more than 16,384 bytes"),
    (
        NotInForm,
        2,
        b"the line that is due is missing, or not of its form",
    ),
    (
        SectionCountOutside,
        3,
        b"the count of the section is outside its limits",
    ),
    (NameTwice, 4, b"the name stands already"),
    (NoSuchWord, 5, b"no template has this word"),
    (NoSuchName, 6, b"no cue has this name"),
    (LeftOver, 7, b"there are bytes after the last line"),
];

// The same of what a draft turns down.
const BY_DRAFT: [(DraftRefusal, u8, &[u8]); 2] = [
    (CountOutside, 10, b"the count is not 1 to 14"),
    (SameCue, 11, b"A and B are the same cue"),
];

// The lines of faults, and what is printed of them.
const LINES: [(u32, &[u8]); 4] = [
    (0, b"line 0: "),
    (1, b"line 1: "),
    (67, b"line 67: "),
    (u32::MAX, b"line 4294967295: "),
];

// A value is printed so.
fn prints(
    rt: &impl Abort,
    alloc: Global,
    value: &impl Display,
    expected: &[u8],
) -> Result<(), Fail> {
    let printed = format!(in alloc; "{value}")?;
    assert_eq!(rt; printed.as_bytes(), expected);
    Ok(())
}

// A refusal has this number and layer, and is printed so, with a line and without.
fn is_printed(
    rt: &impl Abort,
    alloc: Global,
    refusal: Refusal,
    number: u8,
    layer: &[u8],
    text: &[u8],
) -> Result<(), Fail> {
    assert_eq!(rt; refusal.number(), number);
    prints(rt, alloc, &refusal.layer(), layer)?;
    prints(rt, alloc, &refusal, text)?;
    for (line, front) in &LINES {
        let fault = Fault {
            refusal,
            line: *line,
        };
        prints(rt, alloc, &fault, joined(front, text, b"").text())?;
    }
    Ok(())
}

#[test]
fn refusals_have_numbers_layers_and_texts(rt: HostRuntime) -> Result<(), Fail> {
    for &(refusal, number, text) in &BY_READER {
        assert_eq!(rt; refusal.number(), number);
        prints(&rt, rt.alloc(), &refusal, text)?;
        is_printed(
            &rt,
            rt.alloc(),
            Refusal::Reader(refusal),
            number,
            b"reader",
            text,
        )?;
    }
    for &(refusal, number, text) in &BY_DRAFT {
        is_printed(
            &rt,
            rt.alloc(),
            Refusal::Draft(refusal),
            number,
            b"draft",
            text,
        )?;
    }
    Ok(())
}

#[test]
fn a_fault_is_printed_with_its_line(rt: HostRuntime) -> Result<(), Fail> {
    match Sheet::read(b"cues 1\nA\nleft 1\nexactly A 15\n") {
        Ok(_) => assert!(rt; false),
        Err(fault) => prints(&rt, rt.alloc(), &fault, b"line 4: the count is not 1 to 14")?,
    }
    Ok(())
}
