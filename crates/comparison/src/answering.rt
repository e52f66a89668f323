//! Answering the sheet that a reader gives.
ghost use Rattle.std.specs.Prelude.{◌≡◌, ◌≢◌, ◌≤◌, IfErr, IfOk, OnOk, Some, length, take};
ghost use Rattle.std.specs.IoError.{error_kind};
ghost use Rattle.std.specs.Io.KnownBytes.{Consumes};
ghost use Rattle.comparison.specs.Answering.{Answers, ReadsEnough, NotAnswered, StandsInFront, TakenSoFar, cause_of, answer_words};

use crate::sheets::compared;
use sheet::MOST_BYTES;
use std::error::Error;
use std::io::{ErrorKind, Read, Write};
use std::{fmt, io};

// As many bytes as it takes to know that a sheet is too long.
const ENOUGH: usize = MOST_BYTES + 1;

/// Why the sheet that there is to read is not answered.
#[derive(Clone, Copy, Debug)]
pub enum AnswerError {
    /// Reading the sheet failed.
    Reading(io::Error),
    /// Writing the outcome failed.
    Writing(io::Error),
}

impl AnswerError {
    /// What the reader or the writer gave as the reason.
    pub fn cause(self) -> io::Error
        ensures { result ≡ cause_of self }
    {
        match self {
            AnswerError::Reading(cause) | AnswerError::Writing(cause) => cause,
        }
    }
}

// Which of the two failed. Why it did is not told.
impl fmt::Display for AnswerError {
    ghost output = { λ e. Some (answer_words e) };

    ghost styled_output = { λ e _. Some (answer_words e) };

    fn fmt<W: fmt::Write>(&self, f: &mut fmt::Formatter<W>) -> fmt::Result {
        f.write_str(match self {
            AnswerError::Reading(_) => "the sheet cannot be read",
            AnswerError::Writing(_) => "the outcome cannot be printed",
        })
    }
}

impl Error for AnswerError {}

// Reads until the buffer is full or nothing is left to read, and answers how many bytes were read. Where reading fails, all that was
// read stands at the front of the buffer just the same. The reader is asked at most 2^64 - 1 times.
fn fill<R: Read>(reader: &mut R, buffer: &mut [u8]) -> io::Result<usize>
    ensures within_the_buffer { IfOk result (λ n. n ≤ length buffer.old) }
    ensures front_is_there { IfOk result (λ n.
        StandsInFront (R.remaining reader.old) (length buffer.old) n buffer.new) }
    ensures no_more_taken { IfOk result (λ n.
        Consumes (R.remaining reader.old) (R.remaining reader.new) (take n buffer.new)) }
    ensures failed_after_some { IfErr result (λ _.
        TakenSoFar (R.remaining reader.old) (R.remaining reader.new)
        (length buffer.old) buffer.new) }
    ensures interruption_retried { IfErr result (λ e. error_kind e ≢ ErrorKind.Interrupted) }
{
    let mut filled = 0;
    for _ in 0..u64::MAX {
        if filled >= buffer.len() {
            return Ok(filled);
        }
        match reader.read(&mut buffer[filled..]) {
            Ok(0) => return Ok(filled),
            Ok(count) => filled += count,
            Err(error) if error.kind() == ErrorKind::Interrupted => {}
            Err(error) => return Err(error),
        }
    }
    Err(ErrorKind::TimedOut.into())
}

/// Answers the sheet that there is to read: writes what is to be printed for it, and nothing else. Where reading fails, nothing is
/// written.
pub fn answer<R: Read, W: Write>(reader: &mut R, writer: &mut W) -> Result<(), AnswerError>
    ensures reads_enough { OnOk result
        (ReadsEnough (R.remaining reader.old) (R.remaining reader.new)) }
    ensures writes_the_answer { OnOk result
        (Answers (R.remaining reader.old) (W.contents writer.old) (W.contents writer.new)) }
    ensures fails_as_told { IfErr result
        (NotAnswered (R.remaining reader.old) (R.remaining reader.new)
        (W.contents writer.old) (W.contents writer.new)) }
{
    let mut buffer = [0; ENOUGH];
    let count = fill(reader, &mut buffer).map_err(AnswerError::Reading)?;
    let outcome = compared(&buffer[..count]);
    write!(writer, "{outcome}").map_err(AnswerError::Writing)?;
    Ok(())
}
