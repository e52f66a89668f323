//! The type of reports.
ghost use Rattle.std.specs.Prelude.{All, IsAscii};
ghost use Rattle.sheet.specs.Names.{names_of};

use crate::deciding::Tally;
use crate::outcomes::Finding;
use sheet::Names;

/// A report of the two books of a sheet: what comparing them finds, and how many joint positions it took.
#[derive(Drop)]
pub struct Report<'a> {
    /// The names of the cues.
    pub names: Names<'a>,
    /// What is found.
    pub finding: Finding,
    /// How many joint positions were worked and recorded.
    pub tally: Tally,
    ghost readable: { All IsAscii (names_of names) },
}
