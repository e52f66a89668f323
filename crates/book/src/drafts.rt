//! The type of a draft. Its calls are in the modules below.
ghost use Rattle.std.specs.Prelude.{◌≤◌};
ghost use Rattle.book.specs.Held.{Tidy};

use crate::held::Held;

mod editing;
mod refusals;

/// A draft (a constraint set that is being edited): a cue count, and at most 16 rules, numbered from 0. It is no machine until
/// it is sealed.
#[derive(Drop)]
pub struct Draft {
    pub(crate) cues: u8,
    pub(crate) held: Held,
    ghost some_cues: { 1 ≤ cues },
    ghost few_cues: { cues ≤ 32 },
    ghost tidy: { Tidy held },
}

/// Why a draft's call is turned down. A refusal's published number is that of its case.
#[derive(Clone, Copy, Debug, PartialEq, Eq, Hash)]
pub enum DraftRefusal {
    /// The template's number is not 1 to 21.
    NoSuchTemplate = 8,
    /// A cue that the template takes is not below the cue count.
    NoSuchCue = 9,
    /// The count is not 1 to 14.
    CountOutside = 10,
    /// A and B are the same cue.
    SameCue = 11,
    /// Sixteen rules are held.
    Full = 12,
    /// There is no rule of that number, or it takes no count.
    NoSuchRule = 13,
}
