//! How outcomes are printed.
ghost use Rattle.std.specs.Prelude.{◌≡◌, Some};
ghost use Rattle.sheet.specs.Names.{names_of, name_of};
ghost use Rattle.comparison.specs.Printing.{report_text, outcome_text, show_text};

use crate::outcomes::Outcome;
use crate::reports::Report;
use machine::Numbered;
use std::{fmt, str};

impl Report<'_> {
    /// The name of a cue; of what is no cue, the empty text.
    pub fn name(&self, cue: u8) -> &str
        ensures { result.now ≡ name_of (names_of self.now.names) cue }
    {
        let name = self.names.name(cue).unwrap_or(&[]);
        str::from_utf8(name).unwrap()
    }
}

// A show of a report: its length, and the names of its cues.
#[derive(Clone, Copy)]
struct ShowLine<'r, 'a> {
    report: &'r Report<'a>,
    show: &'r [u8],
}

impl fmt::Display for ShowLine<'_, '_> {
    ghost output = { λ line. Some (show_text (names_of line.report.now.names) line.show.now) };

    fn fmt<W: fmt::Write>(&self, f: &mut fmt::Formatter<W>) -> fmt::Result {
        let length = self.show.len();
        write!(f, "{length}")?;
        for cue in self.show {
            let name = self.report.name(*cue);
            write!(f, " {name}")?;
        }
        Ok(())
    }
}

// The verdict with its tally, and the show found, where there is one.
impl fmt::Display for Report<'_> {
    ghost output = { λ report.
        Some (report_text (names_of report.names) report.finding report.tally) };

    fn fmt<W: fmt::Write>(&self, f: &mut fmt::Formatter<W>) -> fmt::Result {
        let verdict = self.finding.verdict();
        let tally = self.tally;
        writeln!(f, "{verdict} {tally}")?;
        if let Some(show) = self.finding.show() {
            let line = ShowLine { report: self, show };
            writeln!(f, "{line}")?;
        }
        Ok(())
    }
}

// What `compare` prints, each line with its end.
impl fmt::Display for Outcome<'_> {
    ghost output = { λ outcome. Some (outcome_text outcome) };

    fn fmt<W: fmt::Write>(&self, f: &mut fmt::Formatter<W>) -> fmt::Result {
        match self {
            Outcome::Refused(fault) => {
                let number = fault.refusal.number();
                let line = fault.line;
                let layer = fault.refusal.layer();
                writeln!(f, "refused {number} {line} {layer}")
            }
            Outcome::Compared(report) => write!(f, "{report}"),
        }
    }
}
