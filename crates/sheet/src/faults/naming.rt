//! What faults are called.
ghost use Rattle.std.specs.Prelude.{◌≡◌, Some};
ghost use Rattle.sheet.specs.declared.faults.Refusal.TheVariants.{Reader, Draft};
ghost use Rattle.sheet.specs.Naming.{reader_number, reader_words, refusal_number, refusal_words, layer_of, layer_word, fault_words};
ghost use Rattle.std.proofs.Common.{rules};

use super::{Fault, Layer, ReaderRefusal, Refusal};
use book::DraftRefusal;
use machine::Numbered;
use std::error::Error;
use std::fmt;

impl Numbered for ReaderRefusal {
    ghost number = { reader_number };

    ghost told_apart = { Prim.search rules };

    fn number(self) -> u8 {
        self as u8
    }
}

impl Numbered for Refusal {
    ghost number = { refusal_number };

    ghost told_apart = { Prim.search rules };

    fn number(self) -> u8 {
        match self {
            Refusal::Reader(refusal) => refusal.number(),
            Refusal::Draft(refusal) => refusal.number(),
        }
    }
}

impl Refusal {
    /// The layer that turns the sheet down.
    pub fn layer(self) -> Layer
        ensures { result ≡ layer_of self }
    {
        match self {
            Refusal::Reader(_) => Layer::Reader,
            Refusal::Draft(_) => Layer::Draft,
        }
    }
}

impl From<ReaderRefusal> for Refusal {
    ghost from_gives = { λ r e. e ≡ Reader r };

    /// What the reader turns down.
    fn from(reader: ReaderRefusal) -> Refusal {
        Refusal::Reader(reader)
    }
}

impl From<DraftRefusal> for Refusal {
    ghost from_gives = { λ r e. e ≡ Draft r };

    /// What a draft turns down.
    fn from(draft: DraftRefusal) -> Refusal {
        Refusal::Draft(draft)
    }
}

impl fmt::Display for Layer {
    ghost output = { λ l. Some (layer_word l) };

    ghost styled_output = { λ l _. Some (layer_word l) };

    fn fmt<W: fmt::Write>(&self, f: &mut fmt::Formatter<W>) -> fmt::Result {
        f.write_str(match self {
            Layer::Reader => "reader",
            Layer::Draft => "draft",
        })
    }
}

impl fmt::Display for ReaderRefusal {
    ghost output = { λ r. Some (reader_words r) };

    ghost styled_output = { λ r _. Some (reader_words r) };

    fn fmt<W: fmt::Write>(&self, f: &mut fmt::Formatter<W>) -> fmt::Result {
        f.write_str(match self {
            ReaderRefusal::TooLong => "the sheet has more than 16,384 bytes",
            ReaderRefusal::NotInForm => "the line that is due is missing, or not of its form",
            ReaderRefusal::SectionCountOutside => "the count of the section is outside its limits",
            ReaderRefusal::NameTwice => "the name stands already",
            ReaderRefusal::NoSuchWord => "no template has this word",
            ReaderRefusal::NoSuchName => "no cue has this name",
            ReaderRefusal::LeftOver => "there are bytes after the last line",
        })
    }
}

impl fmt::Display for Refusal {
    ghost output = { λ r. Some (refusal_words r) };

    fn fmt<W: fmt::Write>(&self, f: &mut fmt::Formatter<W>) -> fmt::Result {
        match self {
            Refusal::Reader(refusal) => write!(f, "{refusal}"),
            Refusal::Draft(refusal) => write!(f, "{refusal}"),
        }
    }
}

impl fmt::Display for Fault {
    ghost output = { λ fault. Some (fault_words fault) };

    fn fmt<W: fmt::Write>(&self, f: &mut fmt::Formatter<W>) -> fmt::Result {
        let Fault { refusal, line } = *self;
        write!(f, "line {line}: {refusal}")
    }
}

impl Error for ReaderRefusal {}

impl Error for Refusal {}

impl Error for Fault {}
