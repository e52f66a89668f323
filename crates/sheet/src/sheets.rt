//! Sheets.
ghost use Rattle.sheet.specs.Reading.{ReadRightly, AcceptedWhenWritten, RefusedByItsFault};

use crate::faults::Fault;
use crate::names::Names;
use crate::reader::Reader;
use book::Draft;

/// How many bytes a sheet has at most.
pub const MOST_BYTES: usize = 16_384;

/// A sheet (the input document of a comparison), as it was read: the names of its cues, and the drafts of the two books that are
/// to be compared.
#[derive(Drop)]
pub struct Sheet<'a> {
    /// The names of the cues.
    pub names: Names<'a>,
    /// The draft of the left book.
    pub left: Draft,
    /// The draft of the right book.
    pub right: Draft,
}

impl<'a> Sheet<'a> {
    /// Reads a sheet. It is accepted exactly when it is written as the form asks, and else refused with the first fault in reading
    /// order.
    pub fn read(sheet: &'a [u8]) -> Result<Sheet<'a>, Fault>
        ensures holds_what_is_written { ReadRightly result sheet.now }
        ensures accepted_when_written { AcceptedWhenWritten result sheet.now }
        ensures refused_by_its_fault { RefusedByItsFault result sheet.now }
    {
        let reader = Reader::over(sheet)?;
        reader.whole()
    }
}
