//! What a draft's refusals are called.
ghost use Rattle.std.specs.Prelude.{◌≡◌, Some};
ghost use Rattle.book.specs.Draft.{draft_number, draft_words, of_rule};
ghost use Rattle.std.proofs.Common.{rules};

use super::DraftRefusal;
use machine::Numbered;
use rules::RuleRefusal;
use std::error::Error;
use std::fmt;

impl Numbered for DraftRefusal {
    ghost number = { draft_number };

    ghost told_apart = { Prim.search rules };

    fn number(self) -> u8 {
        self as u8
    }
}

impl fmt::Display for DraftRefusal {
    ghost output = { λ e. Some (draft_words e) };

    ghost styled_output = { λ e _. Some (draft_words e) };

    fn fmt<W: fmt::Write>(&self, f: &mut fmt::Formatter<W>) -> fmt::Result {
        f.write_str(match self {
            DraftRefusal::NoSuchTemplate => "the template is not 1 to 21",
            DraftRefusal::NoSuchCue => "a cue is not below the cue count",
            DraftRefusal::CountOutside => "the count is not 1 to 14",
            DraftRefusal::SameCue => "A and B are the same cue",
            DraftRefusal::Full => "sixteen rules are held",
            DraftRefusal::NoSuchRule => "there is no such rule, or it takes no count",
        })
    }
}

impl Error for DraftRefusal {}

impl From<RuleRefusal> for DraftRefusal {
    ghost from_gives = { λ r e. e ≡ of_rule r };

    /// A rule's own refusals are those of the draft.
    fn from(refusal: RuleRefusal) -> DraftRefusal {
        match refusal {
            RuleRefusal::CountOutside => DraftRefusal::CountOutside,
            RuleRefusal::SameCue => DraftRefusal::SameCue,
        }
    }
}
