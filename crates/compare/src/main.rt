//! Reads a sheet from standard input, compares its two books, and prints what came of it.

#![tactic(auto)]

ghost use Rattle.std.specs.Prelude.{IfErr, OnOk, Some};
ghost use Rattle.anyhow.specs.Error.{HasMessage};
ghost use Rattle.comparison.specs.Answering.{Answers, ReadsEnough, answer_words};
ghost use Rattle.compare.specs.Failing.{FailsAsTold};

use comparison::{AnswerError, answer};
use std::io;
use std::io::{Read, Write};

#[cfg(test)]
mod tests;

// An error as it is told: which of the two failed, and why.
fn told(error: AnswerError) -> anyhow::Error
    ensures says_which { HasMessage (Some (answer_words error)) result }
{
    anyhow::Error::from(error.cause()).context(error)
}

// Answers the sheet that there is to read. A failure is told by which of reading and writing it was.
fn run<R: Read, W: Write>(reader: &mut R, writer: &mut W) -> anyhow::Result<()>
    ensures reads_enough { OnOk result
        (ReadsEnough (R.remaining reader.old) (R.remaining reader.new)) }
    ensures writes_the_answer { OnOk result
        (Answers (R.remaining reader.old) (W.contents writer.old) (W.contents writer.new)) }
    ensures fails_as_told { IfErr result
        (FailsAsTold (R.remaining reader.old) (R.remaining reader.new)
        (W.contents writer.old) (W.contents writer.new)) }
{
    answer(reader, writer).map_err(told)
}

fn main(rt: HostRuntime) -> anyhow::Result<()> {
    run(&mut rt.reader(), &mut io::writer(&rt))
}
