//! Sheets at the edges of what is accepted: the most and the fewest of everything, and every byte in every kind of field.
use super::accepting::{Place, sheet_holds};
use super::plain::WORDS;
use super::{Page, Terms, Told, joined, try_line, try_sheet};
use sheet::Layer::Reader;
use std::process::Abort;
use std::test::Fail;

#[test]
fn long_sheets_are_refused(rt: HostRuntime) {
    try_sheet(&rt, &[b'A'; 16_384], Some((2, 1, Reader)));
    try_sheet(&rt, &[b'A'; 16_385], Some((1, 0, Reader)));
    try_sheet(&rt, &[255; 70_000], Some((1, 0, Reader)));
}

// Names as long as they may be, each with the line and the byte at which it begins behind a line of eight bytes.
const NAMES: [Place; 33] = [
    (b"LONG-ENOUGH---00", 2, 8),
    (b"LONG-ENOUGH---01", 3, 25),
    (b"LONG-ENOUGH---02", 4, 42),
    (b"LONG-ENOUGH---03", 5, 59),
    (b"LONG-ENOUGH---04", 6, 76),
    (b"LONG-ENOUGH---05", 7, 93),
    (b"LONG-ENOUGH---06", 8, 110),
    (b"LONG-ENOUGH---07", 9, 127),
    (b"LONG-ENOUGH---08", 10, 144),
    (b"LONG-ENOUGH---09", 11, 161),
    (b"LONG-ENOUGH---10", 12, 178),
    (b"LONG-ENOUGH---11", 13, 195),
    (b"LONG-ENOUGH---12", 14, 212),
    (b"LONG-ENOUGH---13", 15, 229),
    (b"LONG-ENOUGH---14", 16, 246),
    (b"LONG-ENOUGH---15", 17, 263),
    (b"LONG-ENOUGH---16", 18, 280),
    (b"LONG-ENOUGH---17", 19, 297),
    (b"LONG-ENOUGH---18", 20, 314),
    (b"LONG-ENOUGH---19", 21, 331),
    (b"LONG-ENOUGH---20", 22, 348),
    (b"LONG-ENOUGH---21", 23, 365),
    (b"LONG-ENOUGH---22", 24, 382),
    (b"LONG-ENOUGH---23", 25, 399),
    (b"LONG-ENOUGH---24", 26, 416),
    (b"LONG-ENOUGH---25", 27, 433),
    (b"LONG-ENOUGH---26", 28, 450),
    (b"LONG-ENOUGH---27", 29, 467),
    (b"LONG-ENOUGH---28", 30, 484),
    (b"LONG-ENOUGH---29", 31, 501),
    (b"LONG-ENOUGH---30", 32, 518),
    (b"LONG-ENOUGH---31", 33, 535),
    (b"LONG-ENOUGH---32", 34, 552),
];

// Rules as long as they may be, each about two of the cues in turn.
const RULES: [&[u8]; 17] = [
    b"not-chain-succession LONG-ENOUGH---00 LONG-ENOUGH---31",
    b"not-chain-succession LONG-ENOUGH---01 LONG-ENOUGH---30",
    b"not-chain-succession LONG-ENOUGH---02 LONG-ENOUGH---29",
    b"not-chain-succession LONG-ENOUGH---03 LONG-ENOUGH---28",
    b"not-chain-succession LONG-ENOUGH---04 LONG-ENOUGH---27",
    b"not-chain-succession LONG-ENOUGH---05 LONG-ENOUGH---26",
    b"not-chain-succession LONG-ENOUGH---06 LONG-ENOUGH---25",
    b"not-chain-succession LONG-ENOUGH---07 LONG-ENOUGH---24",
    b"not-chain-succession LONG-ENOUGH---08 LONG-ENOUGH---23",
    b"not-chain-succession LONG-ENOUGH---09 LONG-ENOUGH---22",
    b"not-chain-succession LONG-ENOUGH---10 LONG-ENOUGH---21",
    b"not-chain-succession LONG-ENOUGH---11 LONG-ENOUGH---20",
    b"not-chain-succession LONG-ENOUGH---12 LONG-ENOUGH---19",
    b"not-chain-succession LONG-ENOUGH---13 LONG-ENOUGH---18",
    b"not-chain-succession LONG-ENOUGH---14 LONG-ENOUGH---17",
    b"not-chain-succession LONG-ENOUGH---15 LONG-ENOUGH---16",
    b"not-chain-succession LONG-ENOUGH---16 LONG-ENOUGH---15",
];

// What the first sixteen are read as.
const TERMS: [Terms; 16] = [
    (19, 0, 31, 0),
    (19, 1, 30, 0),
    (19, 2, 29, 0),
    (19, 3, 28, 0),
    (19, 4, 27, 0),
    (19, 5, 26, 0),
    (19, 6, 25, 0),
    (19, 7, 24, 0),
    (19, 8, 23, 0),
    (19, 9, 22, 0),
    (19, 10, 21, 0),
    (19, 11, 20, 0),
    (19, 12, 19, 0),
    (19, 13, 18, 0),
    (19, 14, 17, 0),
    (19, 15, 16, 0),
];

// The count in the line of a section, and how many lines stand under it.
type Count = (&'static [u8], usize);

// Puts the section of a book, with so many of the longest rules.
fn put_rules(page: &mut Page, word: &[u8], count: Count) {
    page.put(word);
    page.put(count.0);
    page.put(b"\n");
    for line in RULES.iter().take(count.1) {
        page.put(line);
        page.put(b"\n");
    }
}

// A sheet with so many of the longest names, and so many of the longest rules a side.
fn long_sheet(names: Count, left: Count, right: Count) -> Page {
    let mut page = joined(b"cues ", names.0, b"\n");
    for (name, _, _) in NAMES.iter().take(names.1) {
        page.put(name);
        page.put(b"\n");
    }
    put_rules(&mut page, b"left ", left);
    put_rules(&mut page, b"right ", right);
    page
}

// How many names and rules a side a sheet says it has and has, and the number of the refusal with its line.
const COUNTS: [(Count, Count, Count, Option<Told>); 14] = [
    ((b"32", 32), (b"16", 16), (b"16", 16), None),
    ((b"32", 32), (b"16", 16), (b"0", 0), None),
    ((b"32", 32), (b"0", 0), (b"16", 16), None),
    ((b"33", 33), (b"0", 0), (b"0", 0), Some((3, 1, Reader))),
    ((b"32", 33), (b"0", 0), (b"0", 0), Some((2, 34, Reader))),
    ((b"31", 32), (b"0", 0), (b"0", 0), Some((2, 33, Reader))),
    ((b"32", 31), (b"0", 0), (b"0", 0), Some((2, 33, Reader))),
    ((b"32", 32), (b"17", 17), (b"0", 0), Some((3, 34, Reader))),
    ((b"32", 32), (b"16", 17), (b"0", 0), Some((2, 51, Reader))),
    ((b"32", 32), (b"16", 15), (b"0", 0), Some((5, 50, Reader))),
    ((b"32", 32), (b"16", 16), (b"17", 17), Some((3, 51, Reader))),
    ((b"32", 32), (b"16", 16), (b"16", 17), Some((7, 68, Reader))),
    ((b"32", 32), (b"16", 16), (b"16", 15), Some((2, 67, Reader))),
    ((b"31", 31), (b"0", 0), (b"1", 1), Some((6, 35, Reader))),
];

#[test]
fn the_most_and_the_fewest_lines_are_read(rt: HostRuntime) {
    for (names, left, right, fault) in &COUNTS {
        let page = long_sheet(*names, *left, *right);
        try_sheet(&rt, page.text(), *fault);
    }
}

#[test]
fn the_longest_sheet_is_accepted(rt: HostRuntime) -> Result<(), Fail> {
    let page = long_sheet((b"32", 32), (b"16", 16), (b"16", 16));
    assert_eq!(rt; page.text().len(), 2_329);
    sheet_holds(&rt, page.text(), &NAMES[..32], &TERMS, &TERMS)
}

// A line of the sheet with three rules a side, and what may stand there as well. No rule is about the last cue.
const ACCEPTED: [(u32, &[u8]); 15] = [
    (4, b"A"),
    (4, b"0"),
    (4, b"-"),
    (4, b"LOA"),
    (4, b"LOADS"),
    (4, b"ABCDEFGHIJKLMNOP"),
    (4, b"0123456789012345"),
    (4, b"----------------"),
    (6, b"existence FLY 1"),
    (8, b"exactly FLY 10"),
    (10, b"absence FLY 14"),
    (12, b"last FLY"),
    // a rule may stand twice
    (7, b"response LOAD HOLD"),
    (8, b"response LOAD HOLD"),
    (12, b"absence HOLD 14"),
];

#[test]
fn lines_in_form_are_accepted(rt: HostRuntime) {
    for (line, text) in &ACCEPTED {
        try_line(&rt, *line, text, None);
    }
}

// Bytes that stand in a text, and the number of the refusal that they lead to there.
type Bytes = (&'static [u8], Option<u8>);

const NAME: &[u8] = b"ABCDEFGHIJKLMNOPQRSTUVWXYZ0123456789-";

const WORD: &[u8] = b"abcdefghijklmnopqrstuvwxyz-";

const WORD_OR_SPACE: &[u8] = b"abcdefghijklmnopqrstuvwxyz- ";

const SPACE: Bytes = (b" ", None);

const MANY: Bytes = (b"0123456789", Some(3));

const MANY_OR_NONE: Bytes = (b"056789", Some(10));

// A line, what stands there before a byte and behind it, and what comes of some bytes, the first that fits. All other bytes are
// refused with 2.
const PLACES: [(u32, &[u8], &[u8], &[Bytes]); 31] = [
    (1, b"cu", b"s 3", &[(b"e", None)]),
    (1, b"cues", b"3", &[SPACE]),
    (1, b"cues 3", b"9", &[MANY]),
    (1, b"", b"cues 3", &[]),
    (5, b"", b"eft 3", &[(b"l", None)]),
    (5, b"left", b"3", &[SPACE]),
    (5, b"left ", b"9", &[(b"123456789", Some(3))]),
    (5, b"left 2", b"", &[MANY]),
    (9, b"righ", b" 3", &[(b"t", None)]),
    (9, b"right", b"3", &[SPACE]),
    (9, b"right 2", b"5", &[MANY]),
    (4, b"LOA", b"", &[(b"D", Some(4)), (NAME, None)]),
    (4, b"", b"", &[(NAME, None)]),
    (4, b"", b"LY", &[(NAME, None)]),
    (4, b"F", b"Y", &[(NAME, None)]),
    (4, b"ABCDEFGHIJKLMNO", b"", &[(NAME, None)]),
    (4, b"ABCDEFGHIJKLMNOP", b"", &[]),
    (6, b"", b"ast FLY", &[(b"l", None), (WORD, Some(5))]),
    (
        7,
        b"la",
        b"t FLY",
        &[(b"s", None), (WORD_OR_SPACE, Some(5))],
    ),
    (8, b"last", b"FLY", &[SPACE]),
    (10, b"", b"", &[(WORD, Some(5))]),
    (12, b"choice LOAD", b"HOLD", &[SPACE]),
    (6, b"last ", b"LY", &[(b"F", None), (NAME, Some(6))]),
    (7, b"choice FLY ", b"", &[(NAME, Some(6))]),
    (8, b"init LOAD", b"", &[(NAME, Some(6))]),
    (
        10,
        b"exactly FLY ",
        b"",
        &[(b"123456789", None), MANY_OR_NONE],
    ),
    (11, b"exactly FLY 1", b"", &[(b"01234", None), MANY_OR_NONE]),
    (
        12,
        b"absence FLY ",
        b"0",
        &[(b"1", None), (b"23456789", Some(10))],
    ),
    (6, b"absence FLY ", b"00", &[(b"123456789", Some(10))]),
    (7, b"exactly FLY 100", b"", &[]),
    // 6 comes before 10
    (
        8,
        b"absence FL",
        b" 0",
        &[(b"Y", Some(10)), (NAME, Some(6))],
    ),
];

// What comes of a byte: what some bytes lead to, the first that have it, or else 2.
fn led_to(some: &[Bytes], byte: u8) -> Option<u8> {
    for (bytes, number) in some {
        if bytes.contains(&byte) {
            return *number;
        }
    }
    Some(2)
}

// Tries each byte but the line end.
fn try_bytes(rt: &impl Abort, line: u32, front: &[u8], back: &[u8], some: &[Bytes]) {
    for byte in 0..=255 {
        if byte != b'\n' {
            let text = joined(front, &[byte], back);
            try_line(rt, line, text.text(), led_to(some, byte));
        }
    }
}

#[test]
fn every_byte_is_tried_in_every_kind_of_field(rt: HostRuntime) {
    for (line, front, back, some) in &PLACES {
        try_bytes(&rt, *line, front, back, some);
    }
}

// Expects a text in place of a rule to be refused with 5, and in place of a section's line with 2.
fn try_word(rt: &impl Abort, front: &[u8], back: &[u8]) {
    try_line(rt, 7, joined(front, back, b" LOAD HOLD").text(), Some(5));
    try_line(rt, 12, joined(front, back, b"").text(), Some(5));
    for line in [1, 5, 9] {
        try_line(rt, line, joined(front, back, b" 3").text(), Some(2));
    }
}

// Tries what is nearly a word: its first or its last letter is left out, or something is added.
fn try_nearly(rt: &impl Abort, word: &[u8]) {
    if let [first, behind @ ..] = word {
        try_word(rt, behind, b"");
        try_word(rt, &[*first], word);
    }
    if let [before @ .., last] = word {
        try_word(rt, before, b"");
        try_word(rt, word, &[*last]);
    }
    try_word(rt, word, b"-");
    try_word(rt, b"-", word);
    try_word(rt, word, word);
}

#[test]
fn nearly_words_are_no_words(rt: HostRuntime) {
    for (word, _) in &WORDS {
        try_nearly(&rt, word);
    }
    try_nearly(&rt, b"cues");
    try_nearly(&rt, b"left");
    try_nearly(&rt, b"right");
}
