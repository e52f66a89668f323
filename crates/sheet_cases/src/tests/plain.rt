//! A plain reading of sheets, which goes over whole lines and tells the first fault. It takes nothing from the crate `sheet` but
//! the type of layers.
use super::{Told, layer_of};

// What a template takes.
#[derive(Clone, Copy)]
pub(super) enum Takes {
    NameAndCount,
    OneName,
    TwoNames,
}

// The words of templates, and what they take.
pub(super) const WORDS: [(&[u8], Takes); 21] = [
    (b"existence", Takes::NameAndCount),
    (b"absence", Takes::NameAndCount),
    (b"exactly", Takes::NameAndCount),
    (b"init", Takes::OneName),
    (b"last", Takes::OneName),
    (b"responded-existence", Takes::TwoNames),
    (b"co-existence", Takes::TwoNames),
    (b"response", Takes::TwoNames),
    (b"precedence", Takes::TwoNames),
    (b"succession", Takes::TwoNames),
    (b"alternate-response", Takes::TwoNames),
    (b"alternate-precedence", Takes::TwoNames),
    (b"alternate-succession", Takes::TwoNames),
    (b"chain-response", Takes::TwoNames),
    (b"chain-precedence", Takes::TwoNames),
    (b"chain-succession", Takes::TwoNames),
    (b"not-co-existence", Takes::TwoNames),
    (b"not-succession", Takes::TwoNames),
    (b"not-chain-succession", Takes::TwoNames),
    (b"choice", Takes::TwoNames),
    (b"exclusive-choice", Takes::TwoNames),
];

// How far a sheet is read: the names so far, with nothing in the places of the others; which section is being read, from 1, or 0
// before the first; and how many of its lines are still due.
#[derive(Drop)]
struct Reading<'a> {
    names: [&'a [u8]; 32],
    section: u8,
    due: u16,
}

impl<'a> Reading<'a> {
    // Takes a line, or answers the number of its refusal.
    fn take(&mut self, line: &'a [u8]) -> Option<u8> {
        let mut places: [&[u8]; 4] = [b"", b"", b"", b""];
        let mut count: usize = 0;
        for field in line.split(|b| *b == b' ') {
            if let Some(place) = places.get_mut(count) {
                *place = field;
            }
            count = count.saturating_add(1);
        }
        let fields = &places[..count.min(4)];
        match (self.section, self.due) {
            (0, 0) => self.open(fields, b"cues", 1, 32),
            (1, 0) => self.open(fields, b"left", 0, 16),
            (2, 0) => self.open(fields, b"right", 0, 16),
            (_, 0) => Some(7),
            (1, _) => self.name(fields),
            _ => self.rule(fields),
        }
    }

    // Takes the line of a section.
    fn open(&mut self, fields: &[&[u8]], word: &[u8], least: u16, most: u16) -> Option<u8> {
        match fields {
            [own, count] if *own == word => match decimal(count) {
                None => Some(2),
                Some(n) if n < least || most < n => Some(3),
                Some(n) => {
                    self.section = self.section.saturating_add(1);
                    self.due = n;
                    None
                }
            },
            _ => Some(2),
        }
    }

    // Takes the line of a name.
    fn name(&mut self, fields: &[&'a [u8]]) -> Option<u8> {
        match fields {
            [name] if is_name(name) => {
                if self.names.contains(name) {
                    return Some(4);
                }
                for place in &mut self.names {
                    if place.is_empty() {
                        *place = name;
                        break;
                    }
                }
                self.due = self.due.saturating_sub(1);
                None
            }
            _ => Some(2),
        }
    }

    // Takes the line of a rule.
    fn rule(&mut self, fields: &[&[u8]]) -> Option<u8> {
        let (word, fields) = fields.split_first()?;
        if !consists(word, b"abcdefghijklmnopqrstuvwxyz-") {
            return Some(2);
        }
        self.due = self.due.saturating_sub(1);
        match takes_of(word) {
            None => Some(5),
            Some(takes) => self.arguments(takes, fields),
        }
    }

    // Takes the fields behind the word of a template.
    fn arguments(&self, takes: Takes, fields: &[&[u8]]) -> Option<u8> {
        match (takes, fields) {
            (Takes::NameAndCount, [name, n]) if is_name(name) => match decimal(n) {
                None => Some(2),
                Some(_) if !self.names.contains(name) => Some(6),
                Some(1..=14) => None,
                Some(_) => Some(10),
            },
            (Takes::OneName, [name]) if is_name(name) => (!self.names.contains(name)).then_some(6),
            (Takes::TwoNames, [a, b]) if is_name(a) && is_name(b) => {
                if !self.names.contains(a) || !self.names.contains(b) {
                    Some(6)
                } else {
                    (a == b).then_some(11)
                }
            }
            _ => Some(2),
        }
    }
}

// What the template of a word takes.
fn takes_of(word: &[u8]) -> Option<Takes> {
    for (own, takes) in &WORDS {
        if *own == word {
            return Some(*takes);
        }
    }
    None
}

// Whether a text has some bytes, and these alone.
fn consists(text: &[u8], bytes: &[u8]) -> bool {
    for b in text {
        if !bytes.contains(b) {
            return false;
        }
    }
    !text.is_empty()
}

// Whether a text has the form of a name.
fn is_name(text: &[u8]) -> bool {
    text.len() <= 16 && consists(text, b"ABCDEFGHIJKLMNOPQRSTUVWXYZ0123456789-")
}

// The number below 1,000 that is written so.
fn decimal(text: &[u8]) -> Option<u16> {
    if !consists(text, b"0123456789")
        || text.len() > 3
        || text.len() > 1 && text.starts_with(b"0")
    {
        return None;
    }
    let mut n: u16 = 0;
    for b in text {
        n = n
            .saturating_mul(10)
            .saturating_add(u16::from(*b).saturating_sub(48));
    }
    Some(n)
}

// The fault of a sheet, where it is not accepted.
pub(super) fn told(sheet: &[u8]) -> Option<Told> {
    if sheet.len() > 16_384 {
        return Some((1, 0, layer_of(1)));
    }
    let mut reading = Reading {
        names: [b""; 32],
        section: 0,
        due: 0,
    };
    let whole = sheet.iter().filter(|b| **b == b'\n').count();
    let mut number: u32 = 1;
    for line in sheet.split(|b| *b == b'\n').take(whole) {
        if let Some(refused) = reading.take(line) {
            return Some((refused, number, layer_of(refused)));
        }
        number = number.saturating_add(1);
    }
    if reading.section < 3 || reading.due > 0 {
        return Some((2, number, layer_of(2)));
    }
    match sheet.last() {
        Some(b'\n') => None,
        _ => Some((7, number, layer_of(7))),
    }
}
