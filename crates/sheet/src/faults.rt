//! The types of faults: why a sheet is turned down, and in which line. What they are called is in the module below.

use book::DraftRefusal;

mod naming;

/// Why the reader turns a sheet down. A refusal's published number is that of its case.
#[derive(Clone, Copy, Debug, PartialEq, Eq, Hash)]
pub enum ReaderRefusal {
    /// The sheet has more than 16,384 bytes.
    TooLong = 1,
    /// The line that is due is missing, or not of its form.
    NotInForm = 2,
    /// The count of a section is outside its limits.
    SectionCountOutside = 3,
    /// The name stands already.
    NameTwice = 4,
    /// No template has this word.
    NoSuchWord = 5,
    /// No cue has this name.
    NoSuchName = 6,
    /// There are bytes after the last line.
    LeftOver = 7,
}

/// Why a sheet is turned down: by the reader, or by the draft to which a rule is to be added.
#[derive(Clone, Copy, Debug, PartialEq, Eq, Hash)]
pub enum Refusal {
    /// The reader turns it down.
    Reader(ReaderRefusal),
    /// The draft turns the rule down.
    Draft(DraftRefusal),
}

/// The layer that turns a sheet down.
#[derive(Clone, Copy, Debug, PartialEq, Eq, Hash)]
pub enum Layer {
    /// The reader.
    Reader,
    /// A draft.
    Draft,
}

/// A fault: why a sheet is turned down, and the line to which it belongs, from 1. Where a line is missing, or bytes are left
/// over, the number is that of the line which would stand there; a sheet that is too long is at fault in line 0.
#[derive(Clone, Copy, Debug, PartialEq, Eq, Hash)]
pub struct Fault {
    /// Why.
    pub refusal: Refusal,
    /// In which line.
    pub line: u32,
}
