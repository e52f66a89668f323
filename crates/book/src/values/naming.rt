//! What values and the refusals of readings are called.
ghost use Rattle.std.specs.Prelude.{Some};
ghost use Rattle.book.specs.Value.{value_number};
ghost use Rattle.book.specs.Reading.{reading_number, reading_words};
ghost use Rattle.std.proofs.Common.{rules};

use super::{ReadingRefusal, Value};
use machine::Numbered;
use std::error::Error;
use std::fmt;

impl Numbered for Value {
    ghost number = { value_number };

    ghost told_apart = { Prim.search rules };

    fn number(self) -> u8 {
        self as u8
    }
}

impl Numbered for ReadingRefusal {
    ghost number = { reading_number };

    ghost told_apart = { Prim.search rules };

    fn number(self) -> u8 {
        self as u8
    }
}

impl fmt::Display for ReadingRefusal {
    ghost output = { λ e. Some (reading_words e) };

    ghost styled_output = { λ e _. Some (reading_words e) };

    fn fmt<W: fmt::Write>(&self, f: &mut fmt::Formatter<W>) -> fmt::Result {
        f.write_str(match self {
            ReadingRefusal::NoSuchCue => "the cue is not below the cue count",
            ReadingRefusal::NoSuchRule => "there is no such rule",
            ReadingRefusal::NoSuchState => "the position holds a state that the rule lacks",
        })
    }
}

impl Error for ReadingRefusal {}
