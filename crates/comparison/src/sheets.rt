//! From the bytes of a sheet to its outcome.
ghost use Rattle.sheet.specs.Reading.{Holds};
ghost use Rattle.sheet.specs.Sheet.{WellFormed};
ghost use Rattle.comparison.specs.Outcome.{ReportOf, RefusedByItsFault, ReportedAsWritten, OutcomeOf};
ghost use Rattle.comparison.specs.Printing.{outcome_text, JustPrinted};

use crate::books::books_compared;
use crate::outcomes::Outcome;
use crate::reports::Report;
use sheet::Sheet;

/// Compares the two books of a sheet, and answers what comes of it.
///
/// This is all that is promised. A sheet is refused exactly with its fault, the first in reading order (`refused_by_its_fault`). Any
/// other says something, and that is reported (`reported_as_written`): "equal" exactly when the two books are divided by no show,
/// however long, and a bench can record all their joint positions; "full" exactly when there are more of those than that, and as many
/// as it can record, in rank, divide nothing; and else the first show that divides the books, by the side that allows it. A show
/// divides them when every rule of the one holds of it and some rule of the other does not. There is no third outcome
/// (`fault_or_report`), and just its text is to be printed for the sheet (`just_this_printed`).
pub fn compared(sheet: &[u8]) -> Outcome<'_>
    ensures fault_or_report { OutcomeOf result sheet.now }
    ensures refused_by_its_fault { RefusedByItsFault result sheet.now }
    ensures reported_as_written { ReportedAsWritten result sheet.now }
    ensures just_this_printed { JustPrinted sheet.now (outcome_text result) }
{
    match Sheet::read(sheet) {
        Ok(sheet) => Outcome::Compared(report(sheet)),
        Err(fault) => Outcome::Refused(fault),
    }
}

// Compares the two books of a sheet that was read.
fn report(sheet: Sheet<'_>) -> Report<'_>
    requires { (s : _) × Holds sheet s × WellFormed s }
    ensures { (s : _) → Holds sheet.entry s → WellFormed s → ReportOf s result }
{
    let Sheet { names, left, right } = sheet;
    let (finding, tally) = books_compared(left.seal(), right.seal());
    Report {
        names,
        finding,
        tally,
    }
}
