//! Uses of comparisons.
ghost use Rattle.std.specs.Prelude.{◌≡◌, ◌≢◌, ◌<◌, ◌⊎◌, ◌↔◌, length, codes, IsTrue, IfOk, IsSome, IfSome, string_bytes};
ghost use Rattle.std.specs.Bool.{OnFalse};
ghost use Rattle.comparison.specs.Printing.{PrintedFor};
ghost use Rattle.comparison.specs.declared.answering.AnswerError.TheVariants.{Reading, Writing};
ghost use Rattle.clients.specs.Comparisons.{IsSheetOf, AtMostOneWithoutRules, TwoIfToldApart, HasEqualBooks, HaveJoints, TakesAtMost, TakesFirst, HoldsTheSame};
ghost use Rattle.clients.specs.Comparing.{AreSame};

use bench::Verdict;
use comparison::{AnswerError, Decision, Finding, Outcome, answer, compared, decide};
use machine::Machine;
use std::alloc::{AllocError, Global};
use std::io::{Read, Write};

/// How many joint positions of the two books of a sheet are recorded. Where neither book has a rule there is one at most, since it
/// is the rules that tell joint positions apart; and where the books are equal, two shows that a rule tells apart make two.
fn recorded_of(sheet: &[u8]) -> Option<u16>
    ensures told_of_every_sheet { (s : _) → IsSheetOf sheet.now s → IsSome result }
    ensures at_most_one_without_rules { IfSome result (AtMostOneWithoutRules sheet.now) }
    ensures two_if_a_rule_tells_apart { IfSome result (TwoIfToldApart sheet.now) }
{
    match compared(sheet) {
        Outcome::Compared(report) => Some(report.tally.recorded),
        Outcome::Refused(_) => None,
    }
}

/// The line with which a sheet is refused. It is 0 only where the sheet is too long.
fn refused_in_line(sheet: &[u8]) -> Option<u32>
    ensures { IfSome result (λ line. line ≡ 0 → 16384 < length sheet.now) }
{
    match compared(sheet) {
        Outcome::Refused(fault) => Some(fault.line),
        Outcome::Compared(_) => None,
    }
}

/// Whether a sheet's two books are found to be equal: just then neither allows a show alone, and they have no more than 2,048
/// joint positions.
fn is_found_equal(sheet: &[u8]) -> bool
    ensures { IsTrue result ↔ HasEqualBooks sheet.now }
{
    match compared(sheet) {
        Outcome::Compared(report) => match report.finding {
            Finding::Equal => true,
            _ => false,
        },
        Outcome::Refused(_) => false,
    }
}

/// How many joint positions two machines have that are equal.
fn joints_where_equal<L: Machine + Drop, R: Machine + Drop>(left: L, right: R) -> Option<u16>
    ensures have_so_many { (L.Machine.meaning left).steps.cues
        ≡ (R.Machine.meaning right).steps.cues →
        IfSome result (HaveJoints (L.Machine.meaning left).steps (R.Machine.meaning right).steps) }
    ensures told_where_equal { (L.Machine.meaning left).steps.cues
        ≡ (R.Machine.meaning right).steps.cues →
        IsSome result ↔ AreSame (L.Machine.meaning left) (R.Machine.meaning right) }
{
    let decision = decide(left, right, &mut []);
    match decision.verdict {
        Verdict::Equal => Some(decision.tally.worked),
        _ => None,
    }
}

/// The verdict of two machines, and how many joint positions were recorded and not worked: none where the machines are equal, and some
/// where a show divides them. Machines with different cue counts have none.
fn left_to_work<L: Machine + Drop, R: Machine + Drop>(left: L, right: R) -> (Verdict, u16)
    ensures none_where_equal { (L.Machine.meaning left).steps.cues
        ≡ (R.Machine.meaning right).steps.cues →
        result.0 ≡ Verdict.Equal → result.1 ≡ 0 }
    ensures some_where_divided { (L.Machine.meaning left).steps.cues
        ≡ (R.Machine.meaning right).steps.cues →
        ((result.0 ≡ Verdict.Left) ⊎ (result.0 ≡ Verdict.Right)) → 0 < result.1 }
    ensures none_where_unlike { ((L.Machine.meaning left).steps.cues
        ≢ (R.Machine.meaning right).steps.cues) →
        result.1 ≡ 0 }
{
    let Decision { verdict, tally, .. } = decide(left, right, &mut []);
    let unworked = tally.recorded - tally.worked;
    (verdict, unworked)
}

/// Decides two machines into a buffer. Where they have different cue counts, the buffer stays as it was.
fn decided_into<L: Machine + Drop, R: Machine + Drop>(
    left: L,
    right: R,
    buffer: &mut [u8],
) -> Verdict
    ensures { ((L.Machine.meaning left).steps.cues ≢ (R.Machine.meaning right).steps.cues) →
        buffer.new ≡ buffer.old }
{
    decide(left, right, buffer).verdict
}

/// Whether a sheet is told the same twice. It is.
fn told_alike(alloc: Global, sheet: &[u8]) -> Result<bool, AllocError>
    ensures { IfOk result IsTrue }
{
    let outcome = compared(sheet);
    let other = compared(sheet);
    let text = format!(in alloc; "{outcome}")?;
    let other_text = format!(in alloc; "{other}")?;
    Ok(text == other_text)
}

/// Whether a text is what is to be printed for a sheet.
fn is_printed_for(alloc: Global, text: &str, sheet: &[u8]) -> Result<bool, AllocError>
    ensures { IfOk result (λ is. IsTrue is ↔ PrintedFor sheet.now text.now) }
{
    let outcome = compared(sheet);
    let own = format!(in alloc; "{outcome}")?;
    Ok(own.as_str() == text)
}

/// What is printed for a sheet that is too long.
fn printed_when_too_long(alloc: Global, sheet: &[u8]) -> Result<bool, AllocError>
    ensures { 16384 < length sheet.now → IfOk result IsTrue }
{
    is_printed_for(alloc, "refused 1 0 reader\n", sheet)
}

/// Answers a sheet, and says whether reading it failed. Then nothing is written, and at most 16,385 bytes were read; else so many
/// were, or all that there are.
fn fails_in_reading<R: Read, W: Write>(reader: &mut R, writer: &mut W) -> bool
    ensures nothing_written { IsTrue result →
        HoldsTheSame (W.contents writer.old) (W.contents writer.new) }
    ensures little_read { IsTrue result →
        TakesAtMost 16385 (R.remaining reader.old) (R.remaining reader.new) }
    ensures else_all_that_counts_is_read { OnFalse result
        (TakesFirst 16385 (R.remaining reader.old) (R.remaining reader.new)) }
{
    match answer(reader, writer) {
        Ok(()) => false,
        Err(AnswerError::Reading(_)) => true,
        Err(AnswerError::Writing(_)) => false,
    }
}

/// What a program says where a sheet is not answered: which of reading and writing failed.
fn complaint(alloc: Global, error: AnswerError) -> Result<String, AllocError>
    ensures says_reading { IfOk result (λ text. (cause : _) → error ≡ Reading cause →
        string_bytes text ≡ codes "compare: the sheet cannot be read") }
    ensures says_writing { IfOk result (λ text. (cause : _) → error ≡ Writing cause →
        string_bytes text ≡ codes "compare: the outcome cannot be printed") }
{
    format!(in alloc; "compare: {error}")
}
