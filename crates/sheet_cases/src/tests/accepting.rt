//! Accepted sheets, and what they are read as: names with their places, and the rules of both sides.
use super::{EXAMPLE, LINES, Terms, joined, terms_of, written};
use book::Draft;
use sheet::{Field, Names, Sheet};
use std::process::Abort;
use std::test::Fail;

// A name, and the line and the byte at which it begins.
pub(super) type Place = (&'static [u8], u32, usize);

// A sheet that is accepted: its bytes, the names of its cues in their places, and the rules of the left and of the right.
struct Case(
    &'static [u8],
    &'static [Place],
    &'static [Terms],
    &'static [Terms],
);

// The names of the example, and of the sheet with three rules a side.
const NAMES: [Place; 3] = [(b"LOAD", 2, 7), (b"HOLD", 3, 12), (b"FLY", 4, 17)];

// Read by hand.
const CASES: [Case; 7] = [
    Case(b"cues 1\nA\nleft 0\nright 0\n", &[(b"A", 2, 7)], &[], &[]),
    Case(EXAMPLE, &NAMES, &[(8, 0, 1, 0)], &[(14, 0, 1, 0)]),
    Case(
        b"cues 2\nABCDEFGHIJKLMNOP\nQ\nleft 0\nright 0\n",
        &[(b"ABCDEFGHIJKLMNOP", 2, 7), (b"Q", 3, 24)],
        &[],
        &[],
    ),
    Case(
        b"cues 2\nA\nB\nleft 1\nresponse B A\nright 0\n",
        &[(b"A", 2, 7), (b"B", 3, 9)],
        &[(8, 1, 0, 0)],
        &[],
    ),
    Case(
        b"cues 3\n-\n0\n00\nleft 2\ninit 00\nlast -\nright 1\nexactly 0 14\n",
        &[(b"-", 2, 7), (b"0", 3, 9), (b"00", 4, 11)],
        &[(4, 2, 0, 0), (5, 0, 0, 0)],
        &[(3, 1, 0, 14)],
    ),
    // names that begin alike
    Case(
        b"cues 3\nAB\nA\nABC\nleft 2\nchoice A AB\nchoice ABC A\nright 0\n",
        &[(b"AB", 2, 7), (b"A", 3, 10), (b"ABC", 4, 12)],
        &[(20, 1, 0, 0), (20, 2, 1, 0)],
        &[],
    ),
    // one rule twice
    Case(
        b"cues 1\nA\nleft 2\ninit A\ninit A\nright 1\ninit A\n",
        &[(b"A", 2, 7)],
        &[(4, 0, 0, 0), (4, 0, 0, 0)],
        &[(4, 0, 0, 0)],
    ),
];

// These names stand in these places, and there are no others.
fn names_hold(rt: &impl Abort, names: &Names<'_>, places: &[Place]) {
    assert_eq!(rt; usize::from(names.count()), places.len());
    for cue in 0..=255 {
        let place = places.get(usize::from(cue)).copied();
        let field = names.field(cue);
        assert!(rt; field.is_none() || matches!(field, Some(Field::Name(_))));
        assert_eq!(rt; field.map(|it| (it.text(), it.line(), it.at())), place);
        assert_eq!(rt; names.name(cue), place.map(|(name, _, _)| name));
    }
    for (cue, (name, _, _)) in (0..).zip(places) {
        assert_eq!(rt; names.cue(name), Some(cue));
    }
}

// The draft has so many cues and these rules, and no others.
fn draft_holds(rt: &impl Abort, draft: &Draft, cues: usize, rules: &[Terms]) {
    assert_eq!(rt; usize::from(draft.cues()), cues);
    assert_eq!(rt; usize::from(draft.rules()), rules.len());
    for i in 0..=255 {
        let terms = rules.get(usize::from(i)).copied();
        assert_eq!(rt; draft.rule(i).map(terms_of), terms);
    }
}

// The sheet is accepted, and has these names and these rules, and no others.
pub(super) fn sheet_holds(
    rt: &impl Abort,
    sheet: &[u8],
    places: &[Place],
    left: &[Terms],
    right: &[Terms],
) -> Result<(), Fail> {
    let sheet = Sheet::read(sheet)?;
    names_hold(rt, &sheet.names, places);
    draft_holds(rt, &sheet.left, places.len(), left);
    draft_holds(rt, &sheet.right, places.len(), right);
    Ok(())
}

#[test]
fn sheets_are_accepted_as_what_they_say(rt: HostRuntime) -> Result<(), Fail> {
    for Case(sheet, places, left, right) in &CASES {
        sheet_holds(&rt, sheet, places, left, right)?;
    }
    Ok(())
}

// The rules of the sheet with three rules a side.
const LEFT: [Terms; 3] = [(8, 0, 1, 0), (1, 1, 0, 2), (4, 0, 0, 0)];

const RIGHT: [Terms; 3] = [(2, 1, 0, 14), (5, 0, 0, 0), (20, 1, 0, 0)];

#[test]
fn three_rules_a_side_are_read(rt: HostRuntime) -> Result<(), Fail> {
    sheet_holds(&rt, written(&LINES).text(), &NAMES, &LEFT, &RIGHT)
}

// The lines of rules, one of each template, over cues A, B and C, and what they are read as.
const SOME_LINES: [&[u8]; 11] = [
    b"existence A 1",
    b"absence B 7",
    b"exactly C 14",
    b"init C",
    b"last B",
    b"responded-existence A B",
    b"co-existence B A",
    b"response A C",
    b"precedence C A",
    b"succession B C",
    b"alternate-response C B",
];

const SOME: [Terms; 11] = [
    (1, 0, 0, 1),
    (2, 1, 0, 7),
    (3, 2, 0, 14),
    (4, 2, 0, 0),
    (5, 1, 0, 0),
    (6, 0, 1, 0),
    (7, 1, 0, 0),
    (8, 0, 2, 0),
    (9, 2, 0, 0),
    (10, 1, 2, 0),
    (11, 2, 1, 0),
];

const OTHER_LINES: [&[u8]; 10] = [
    b"alternate-precedence A B",
    b"alternate-succession B A",
    b"chain-response A C",
    b"chain-precedence C A",
    b"chain-succession B C",
    b"not-co-existence C B",
    b"not-succession A B",
    b"not-chain-succession B A",
    b"choice A C",
    b"exclusive-choice C A",
];

const OTHERS: [Terms; 10] = [
    (12, 0, 1, 0),
    (13, 1, 0, 0),
    (14, 0, 2, 0),
    (15, 2, 0, 0),
    (16, 1, 2, 0),
    (17, 2, 1, 0),
    (18, 0, 1, 0),
    (19, 1, 0, 0),
    (20, 0, 2, 0),
    (21, 2, 0, 0),
];

const LETTERS: [Place; 3] = [(b"A", 2, 7), (b"B", 3, 9), (b"C", 4, 11)];

// Eleven of the templates stand on one side, and the others on the other.
#[test]
fn every_template_is_read_on_both_sides(rt: HostRuntime) -> Result<(), Fail> {
    let (some, others) = (written(&SOME_LINES), written(&OTHER_LINES));
    let mut one = joined(b"cues 3\nA\nB\nC\nleft 11\n", some.text(), b"right 10\n");
    one.put(others.text());
    sheet_holds(&rt, one.text(), &LETTERS, &SOME, &OTHERS)?;
    let mut other = joined(b"cues 3\nA\nB\nC\nleft 10\n", others.text(), b"right 11\n");
    other.put(some.text());
    sheet_holds(&rt, other.text(), &LETTERS, &OTHERS, &SOME)
}

// What is the name of no cue of the example.
const NO_CUES: &[u8] =
    b"|L|LOA|OAD|LOADS|LOADHOLD|LOAD\n|LOAD\nHOLD| LOAD|load|FL|FLYX|cues|3|\x00";

#[test]
fn other_names_are_not_found(rt: HostRuntime) -> Result<(), Fail> {
    let sheet = Sheet::read(EXAMPLE)?;
    for name in NO_CUES.split(|b| *b == b'|') {
        assert_eq!(rt; sheet.names.cue(name), None, "{name:?}");
    }
    Ok(())
}
